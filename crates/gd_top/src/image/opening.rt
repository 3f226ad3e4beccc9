//! The opening of an image.

ghost use Rattle.std.specs.Prelude.{◌≡◌, ◌≤◌, ◌+◌};
ghost use Rattle.gd_disk.specs.declared.lengths.TheConstants.{DISK_LEN};
ghost use Rattle.gd_store.specs.OpenAnswer.{IsOpenable};
ghost use Rattle.gd_top.specs.Claims.ImageRuns.{TellsImages};
ghost use Rattle.gd_top.specs.Code.Memory.{moment, moment_closed};
ghost use Rattle.gd_top.specs.Code.OverImage.{unless_given, OpensOver};
ghost use Rattle.gd_top.specs.Run.State.{Off};

use crate::halt::Halt;
use crate::item::opening::{write_differs, write_locked, write_opening, write_power_line};
use crate::memory::Memory;
use crate::memory::counts::Counts;
use crate::report::lines::give_text;
use gd_base::{Core, Draws, Sink, Text};
use gd_cabinet::{Cabinet, CabinetOpened, Parts};
use gd_disk::Disk;

/// The most offers, openings or clearings of a run over an image: two for each line, and the first.
pub(crate) const MOST_COUNTED: u64 = 2_000_001;

const _: () = prove!(MOST_COUNTED == 2 * crate::script::reader::MOST_LINES + 1);

/// Opens the memory, and prints what was found and the start, or that the memory is locked. Over a memory that was made under
/// another setup the run ends, and nothing is written. A disk fault comes where a call to the disk failed.
pub(crate) fn open<C: Core, K: Sink, D: Disk, W: Draws>(
    parts: Parts<C, D, W>,
    counts: &mut Counts,
    output: &mut K,
    text: &mut Text,
) -> (Memory<C, D, W>, Result<(), Halt>)
    requires size { (D.state parts.disk).size ≡ DISK_LEN }
    requires openable { IsOpenable (D.state parts.disk) }
    requires few_offers { counts.old.offers ≤ MOST_COUNTED }
    requires few_power_ons { counts.old.power_ons ≤ MOST_COUNTED }
    ensures does { OpensOver (TellsImages D.state) result.1
        (moment_closed Off C.meaning C.view D.state W.block_of K.taken K.faults parts counts.old output.old)
        (moment C.meaning C.view D.state W.block_of K.taken K.faults result.0 counts.new output.new) }
    ensures lines { counts.new.lines ≡ counts.old.lines }
    ensures offers { counts.new.offers ≤ counts.old.offers + 1 }
    ensures power_ons { counts.new.power_ons ≡ counts.old.power_ons + 1 }
    ensures lap { counts.new.lap ≡ counts.old.lap }
{
    counts.power_ons += 1;
    match Cabinet::open(parts, counts.lap) {
        CabinetOpened::Ready { cabinet, found } => {
            counts.offers += 1;
            let count = cabinet.core().count();
            write_opening(text, counts.power_ons, &found, count);
            let given = give_text(output, text);
            (Memory::On(cabinet), given)
        }
        CabinetOpened::Locked { found, parts, .. } => {
            counts.offers += 1;
            write_locked(text, counts.power_ons, &found);
            let given = give_text(output, text);
            (Memory::Locked(parts), given)
        }
        CabinetOpened::Off {
            found: Some(found),
            parts,
        } => {
            counts.offers += 1;
            write_power_line(text, counts.power_ons, &found);
            let given = give_text(output, text);
            (Memory::Off(parts), unless_given(given, Halt::DiskFault))
        }
        CabinetOpened::Off { found: None, parts } => (Memory::Off(parts), Err(Halt::DiskFault)),
        CabinetOpened::Differs { kept, found, parts } => {
            counts.offers += 1;
            write_differs(text, counts.power_ons, &found, &kept, &counts.given);
            let given = give_text(output, text);
            (
                Memory::Locked(parts),
                unless_given(given, Halt::SetupDiffers),
            )
        }
    }
}

/// Why the run ends here, unless the sink failed before.
fn unless_given(given: Result<(), Halt>, halt: Halt) -> Result<(), Halt>
    ensures { result ≡ unless_given given halt }
{
    match given {
        Ok(()) => Err(halt),
        Err(failed) => Err(failed),
    }
}
