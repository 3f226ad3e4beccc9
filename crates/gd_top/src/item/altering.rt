//! A line that alters a byte of a closed memory.

ghost use Rattle.std.specs.Prelude.{◌≡◌, ◌≤◌, ◌+◌, false};
ghost use Rattle.gd_disk.specs.declared.lengths.TheConstants.{DISK_LEN};
ghost use Rattle.gd_script.specs.declared.item.Item.{Item};
ghost use Rattle.gd_store.specs.Copy.{gate_at};
ghost use Rattle.gd_top.specs.Code.Memory.{moment, moment_closed, Does, Sits};
ghost use Rattle.gd_top.specs.Run.Items.{item_meaning};
ghost use Rattle.gd_top.specs.Run.State.{Off};
ghost use Rattle.gd_top.specs.declared.memory.counts.Counts.{Counts};

use crate::halt::Halt;
use crate::memory::Memory;
use crate::report::lines::{give_text, push_altered_line};
use gd_base::{Core, Draws, Sink, Text};
use gd_cabinet::Parts;
use gd_disk::{LabDisk, Side};
use gd_script::LAST_PLACE;
use gd_store::LAYOUT;

/// Combines a byte of a copy with a mask by exclusive or, with the power off.
pub(crate) fn alter<C: Core, K: Sink, L: LabDisk, W: Draws>(
    mut parts: Parts<C, L, W>,
    output: &mut K,
    text: &mut Text,
    side: Side,
    at: u64,
    mask: u8,
) -> (Memory<C, L, W>, Result<(), Halt>)
    requires within { at ≤ LAST_PLACE }
    requires off { (L.state parts.disk).is_on ≡ false }
    requires size { (L.state parts.disk).size ≡ DISK_LEN }
    ensures { (k : Counts)
        → Sits (moment_closed Off C.meaning C.view L.state W.block_of K.taken K.faults parts k output.old)
        → Does (λ M B. item_meaning M B (Item.Alter side at mask)) result.1
        (moment_closed Off C.meaning C.view L.state W.block_of K.taken K.faults parts k output.old)
        (moment C.meaning C.view L.state W.block_of K.taken K.faults result.0 k output.new) }
{
    parts.disk.alter(place_of(side, at), mask);
    text.clear();
    push_altered_line(text, side, at);
    let given = give_text(output, text);
    (Memory::Off(parts), given)
}

/// The place on the disk of a place in a copy.
fn place_of(side: Side, at: u64) -> u64
    requires { at ≤ LAST_PLACE }
    ensures { result ≡ gate_at LAYOUT side + at }
{
    match side {
        Side::A => LAYOUT.a + at,
        Side::B => LAYOUT.b + at,
    }
}
