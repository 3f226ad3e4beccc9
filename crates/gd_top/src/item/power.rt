//! The power, turned on and off by a line.

ghost use Rattle.std.specs.Prelude.{◌≡◌, ◌≤◌, ◌+◌, ◌*◌};
ghost use Rattle.gd_script.specs.declared.item.Item.{Item};
ghost use Rattle.gd_top.specs.Code.Memory.{moment, moment_closed, moment_on, Does, Sits};
ghost use Rattle.gd_top.specs.Run.Items.{item_meaning};
ghost use Rattle.gd_top.specs.Run.State.{Off};
ghost use Rattle.gd_top.specs.declared.memory.counts.Counts.{Counts as CountsData};

use crate::halt::Halt;
use crate::item::opening::reopen;
use crate::memory::Memory;
use crate::memory::counts::Counts;
use crate::report::lines::give_text;
use crate::script::reader::MOST_LINES;
use gd_base::{Core, Draws, Sink, Text};
use gd_cabinet::{Cabinet, Parts};
use gd_disk::LabDisk;

/// Carries out `on`, with the power off. It is a script fault beyond the last power-on that is allowed.
pub(crate) fn turn_on<C: Core, K: Sink, L: LabDisk, W: Draws>(
    parts: Parts<C, L, W>,
    counts: &mut Counts,
    output: &mut K,
    text: &mut Text,
) -> (Memory<C, L, W>, Result<(), Halt>)
    requires sits { Sits
        (moment_closed Off C.meaning C.view L.state W.block_of K.taken K.faults parts counts.old output.old) }
    requires few { counts.old.offers ≤ MOST_LINES + 2 * counts.old.power_ons }
    ensures does { Does (λ M B. item_meaning M B Item.On) result.1
        (moment_closed Off C.meaning C.view L.state W.block_of K.taken K.faults parts counts.old output.old)
        (moment C.meaning C.view L.state W.block_of K.taken K.faults result.0 counts.new output.new) }
    ensures lines { counts.new.lines ≡ counts.old.lines }
    ensures offers { counts.new.offers + 2 * counts.old.power_ons ≤ counts.old.offers + 1 + 2 * counts.new.power_ons }
{
    if counts.is_at_limit() {
        (Memory::Off(parts), Err(Halt::ScriptFault))
    } else {
        reopen(parts, counts, output, text)
    }
}

/// Carries out `off`, with the power on. The memory is closed.
pub(crate) fn turn_off<C: Core, K: Sink, L: LabDisk, W: Draws>(
    cabinet: Cabinet<C, L, W>,
    output: &mut K,
    text: &mut Text,
) -> (Memory<C, L, W>, Result<(), Halt>)
    ensures { (k : CountsData)
        → Sits (moment_on C.meaning C.view L.state W.block_of K.taken K.faults cabinet k output.old)
        → Does (λ M B. item_meaning M B Item.Off) result.1
        (moment_on C.meaning C.view L.state W.block_of K.taken K.faults cabinet k output.old)
        (moment C.meaning C.view L.state W.block_of K.taken K.faults result.0 k output.new) }
{
    let mut parts = cabinet.close();
    parts.disk.power_off();
    text.clear();
    text.push_str("off\n");
    let given = give_text(output, text);
    (Memory::Off(parts), given)
}
