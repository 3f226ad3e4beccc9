//! The clearing of a locked memory.

ghost use Rattle.std.specs.Prelude.{◌≡◌, ◌≤◌, ◌<◌, ◌+◌, ◌*◌, codes, length};
ghost use Rattle.gd_script.specs.declared.item.Item.{Item};
ghost use Rattle.gd_top.specs.Code.Memory.{moment, moment_closed, Does, Sits};
ghost use Rattle.gd_top.specs.Run.Items.{item_meaning};
ghost use Rattle.gd_top.specs.Run.Openings.{power_on, Done};
ghost use Rattle.gd_top.specs.Run.State.{before, Nothing, Off, Locked};

use crate::halt::Halt;
use crate::item::opening::{Opened, open_once, reopen};
use crate::memory::counts::Counts;
use crate::memory::making::make_memory;
use crate::memory::{MOST_POWER_ONS, Memory};
use crate::report::lines::give_text;
use crate::script::reader::MOST_LINES;
use gd_base::{Core, Draws, Sink, Text};
use gd_cabinet::Parts;
use gd_disk::LabDisk;

/// Carries out `clear`, over a locked memory: makes an empty one in its place, under the next lap, turns the power off and on,
/// and opens it. Where a cut comes in the making it is tried again as long as the memory is found locked; where it is found
/// open, the line is done. It is a script fault where no further power-on is allowed.
pub(crate) fn clear<C: Core, K: Sink, L: LabDisk, W: Draws>(
    parts: Parts<C, L, W>,
    counts: &mut Counts,
    output: &mut K,
    text: &mut Text,
) -> (Memory<C, L, W>, Result<(), Halt>)
    requires sits { Sits
        (moment_closed Locked C.meaning C.view L.state W.block_of K.taken K.faults parts counts.old output.old) }
    requires few { counts.old.offers + 1 ≤ MOST_LINES + 2 * counts.old.power_ons }
    ensures does { Does (λ M B. item_meaning M B Item.Clear) result.1
        (moment_closed Locked C.meaning C.view L.state W.block_of K.taken K.faults parts counts.old output.old)
        (moment C.meaning C.view L.state W.block_of K.taken K.faults result.0 counts.new output.new) }
    ensures lines { counts.new.lines ≡ counts.old.lines }
    ensures offers { counts.new.offers + 2 * counts.old.power_ons ≤ counts.old.offers + 1 + 2 * counts.new.power_ons }
{
    if counts.is_at_limit() {
        return (Memory::Locked(parts), Err(Halt::ScriptFault));
    }
    let mut parts = parts;
    loop {
        let armed = parts.disk.cuts_armed();
        parts.core.clear();
        counts.offers += 1;
        let left = match make_memory(parts) {
            Ok(made) => return open_cleared(made, counts, output, text),
            Err(left) => left,
        };
        if left.disk.cuts_armed() >= armed {
            return (Memory::Off(left), Err(Halt::DiskFault));
        }
        counts.fall();
        let (memory, ended) = open_once(left, counts, output, text, true);
        let opened = match ended {
            Ok(opened) => opened,
            Err(halt) => return (memory, Err(halt)),
        };
        match opened {
            Opened::Stands => match memory {
                Memory::Locked(locked) => parts = locked,
                other => return (other, Ok(())),
            },
            Opened::Fell => {
                let Memory::Off(fallen) = memory else {
                    unreachable!();
                };
                return reopen(fallen, counts, output, text);
            }
        }
    }
}

/// Prints that an empty memory was made, and opens it under the next lap.
fn open_cleared<C: Core, K: Sink, L: LabDisk, W: Draws>(
    parts: Parts<C, L, W>,
    counts: &mut Counts,
    output: &mut K,
    text: &mut Text,
) -> (Memory<C, L, W>, Result<(), Halt>)
    requires sits { Sits
        (moment_closed Off C.meaning C.view L.state W.block_of K.taken K.faults parts
        (record counts.old { lap = counts.old.lap + 1 }) output.old) }
    requires room { counts.old.power_ons + length (L.state parts.disk).armed < MOST_POWER_ONS }
    requires few { counts.old.offers ≤ MOST_LINES + 2 * counts.old.power_ons }
    ensures does { Does
        (λ M B s. before (codes "cleared\n") (power_on M B Nothing Done s)) result.1
        (moment_closed Off C.meaning C.view L.state W.block_of K.taken K.faults parts
        (record counts.old { lap = counts.old.lap + 1 }) output.old)
        (moment C.meaning C.view L.state W.block_of K.taken K.faults result.0 counts.new output.new) }
    ensures lines { counts.new.lines ≡ counts.old.lines }
    ensures offers { counts.new.offers + 2 * counts.old.power_ons ≤ counts.old.offers + 2 * counts.new.power_ons }
{
    counts.lap += 1;
    text.clear();
    text.push_str("cleared\n");
    let given = give_text(output, text);
    if given.is_err() {
        return (Memory::Off(parts), given);
    }
    reopen(parts, counts, output, text)
}
