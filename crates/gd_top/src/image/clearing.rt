//! The clearing of a locked image.

ghost use Rattle.std.specs.Prelude.{◌≡◌, ◌≤◌, ◌+◌};
ghost use Rattle.gd_disk.specs.declared.lengths.TheConstants.{DISK_LEN};
ghost use Rattle.gd_script.specs.declared.item.Item.{Item};
ghost use Rattle.gd_top.specs.Claims.ImageRuns.{TellsImages};
ghost use Rattle.gd_top.specs.Code.Memory.{moment, moment_closed};
ghost use Rattle.gd_top.specs.Code.OverImage.{DoesOver};
ghost use Rattle.gd_top.specs.Run.Items.{item_meaning};
ghost use Rattle.gd_top.specs.Run.State.{Locked};

use crate::halt::Halt;
use crate::image::opening::{MOST_COUNTED, open};
use crate::memory::Memory;
use crate::memory::counts::Counts;
use crate::memory::making::make_empty;
use crate::report::lines::give_text;
use gd_base::{Core, Draws, Sink, Text};
use gd_cabinet::Parts;
use gd_disk::Disk;

/// Carries out `clear`, over a locked memory: makes an empty one in its place, under the next lap, and opens it.
pub(crate) fn clear<C: Core, K: Sink, D: Disk, W: Draws>(
    mut parts: Parts<C, D, W>,
    counts: &mut Counts,
    output: &mut K,
    text: &mut Text,
) -> (Memory<C, D, W>, Result<(), Halt>)
    requires size { (D.state parts.disk).size ≡ DISK_LEN }
    requires few_offers { counts.old.offers + 1 ≤ MOST_COUNTED }
    requires few_power_ons { counts.old.power_ons ≤ MOST_COUNTED }
    requires few_laps { counts.old.lap ≤ MOST_COUNTED }
    ensures does { DoesOver (TellsImages D.state) (λ M B. item_meaning M B Item.Clear) result.1
        (moment_closed Locked C.meaning C.view D.state W.block_of K.taken K.faults parts counts.old output.old)
        (moment C.meaning C.view D.state W.block_of K.taken K.faults result.0 counts.new output.new) }
    ensures lines { counts.new.lines ≡ counts.old.lines }
    ensures offers { counts.new.offers ≤ counts.old.offers + 2 }
    ensures power_ons { counts.new.power_ons ≤ counts.old.power_ons + 1 }
    ensures lap { counts.new.lap ≤ counts.old.lap + 1 }
{
    parts.core.clear();
    counts.offers += 1;
    match make_empty(parts) {
        Ok(made) => {
            counts.lap += 1;
            text.clear();
            text.push_str("cleared\n");
            let given = give_text(output, text);
            if given.is_err() {
                return (Memory::Off(made), given);
            }
            open(made, counts, output, text)
        }
        Err(left) => (Memory::Off(left), Err(Halt::DiskFault)),
    }
}
