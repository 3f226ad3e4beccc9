//! What is told of a memory that can't be opened.

ghost use Rattle.std.specs.Prelude.{◌≤◌, OnErr};
ghost use Rattle.gd_base.specs.Outside.Causes.{Rose};
ghost use Rattle.gd_top.specs.Code.Parts.{GivesText};
ghost use Rattle.gd_top.specs.Report.Lines.{locked_line};

use crate::halt::Halt;
use crate::report::lines::{give_text, push_locked_line};
use gd_base::{Sink, Text};

/// Tells that the memory is locked, in place of what a line about the machine asks.
pub(crate) fn tell_lock<K: Sink>(output: &mut K, text: &mut Text) -> Result<(), Halt>
    ensures given { GivesText result (K.taken output.old) (K.taken output.new) locked_line }
    ensures later { K.faults output.old ≤ K.faults output.new }
    ensures cause { OnErr result (Rose (K.faults output.old) (K.faults output.new)) }
{
    text.clear();
    push_locked_line(text);
    give_text(output, text)
}
