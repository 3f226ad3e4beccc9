//! The last lines of a command.

ghost use Rattle.std.specs.Prelude.{◌≡◌, ◌⊎◌, ◌≤◌};
ghost use Rattle.gd_base.specs.Outside.Causes.{Rose};
ghost use Rattle.gd_top.specs.Claims.Runs.{GivesLast};

use crate::report::lines::give_text;
use crate::status::Status;
use gd_base::{Sink, Text};

/// Gives the last lines of a command that ended so, and answers its status: a write fault where the sink failed.
pub(crate) fn tell<K: Sink>(status: Status, output: &mut K, text: &Text) -> Status
    ensures given { GivesLast status result (K.taken output.old) (K.taken output.new) text.now.bytes }
    ensures later { K.faults output.old ≤ K.faults output.new }
    ensures cause { (result ≡ status)
        ⊎ ((result ≡ Status.WriteFault) × Rose (K.faults output.old) (K.faults output.new)) }
{
    match give_text(output, text) {
        Ok(()) => status,
        Err(_) => Status::WriteFault,
    }
}
