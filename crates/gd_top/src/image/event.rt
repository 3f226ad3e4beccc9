//! An event that is offered over an image.

ghost use Rattle.std.specs.Prelude.{◌≡◌, ◌≢◌, ◌≤◌, ◌+◌, ℕ, false, if◌then◌else◌};
ghost use Rattle.gd_base.specs.declared.event.Event.{Event};
ghost use Rattle.gd_base.specs.declared.step.Stepped.{Stepped as SteppedData};
ghost use Rattle.gd_base.specs.Judging.Answer.{is_new};
ghost use Rattle.gd_cabinet.specs.Answers.{cabinet_answer};
ghost use Rattle.gd_cabinet.specs.Cabinet.{cabinet_disk, cabinet_stopped};
ghost use Rattle.gd_disk.specs.declared.lengths.TheConstants.{DISK_LEN};
ghost use Rattle.gd_top.specs.Claims.ImageRuns.{TellsImages};
ghost use Rattle.gd_top.specs.Code.Memory.{moment, moment_on};
ghost use Rattle.gd_top.specs.Code.OverImage.{DoesOver};
ghost use Rattle.gd_top.specs.Run.Items.{event_meaning};

use crate::halt::Halt;
use crate::image::opening::MOST_COUNTED;
use crate::item::event::{is_new, write_answer};
use crate::memory::Memory;
use crate::memory::counts::Counts;
use crate::report::lines::give_text;
use gd_base::{Core, Draws, Numbered, Sink, Text};
use gd_cabinet::{Answer, Cabinet};
use gd_disk::Disk;

/// Offers an event under its number, and prints its answer. A disk fault comes where a call to the disk failed, and a write fault
/// after the event was committed.
pub(crate) fn offer<C: Core, K: Sink, D: Disk, W: Draws>(
    mut cabinet: Cabinet<C, D, W>,
    counts: &mut Counts,
    output: &mut K,
    text: &mut Text,
    e: &Numbered,
) -> (Memory<C, D, W>, Result<(), Halt>)
    requires not_start { e.now.event ≢ Event.Start }
    requires size { (D.state (cabinet_disk cabinet)).size ≡ DISK_LEN }
    requires runs { cabinet_stopped cabinet ≡ false }
    requires few { counts.old.offers ≤ MOST_COUNTED }
    ensures does { DoesOver (TellsImages D.state) (λ M B. event_meaning M B e.now) result.1
        (moment_on C.meaning C.view D.state W.block_of K.taken K.faults cabinet counts.old output.old)
        (moment C.meaning C.view D.state W.block_of K.taken K.faults result.0 counts.new output.new) }
    ensures lines { counts.new.lines ≡ counts.old.lines }
    ensures offers { counts.new.offers ≤ counts.old.offers + 1 }
    ensures power_ons { counts.new.power_ons ≡ counts.old.power_ons }
    ensures lap { counts.new.lap ≡ counts.old.lap }
{
    match cabinet.submit(e) {
        Ok(answer) => {
            counts.offers += offers_of(&answer);
            write_answer(text, e, &answer);
            let given = give_text(output, text);
            (Memory::On(cabinet), given)
        }
        Err(_) => {
            counts.offers += 1;
            (Memory::On(cabinet), Err(Halt::DiskFault))
        }
    }
}

/// How many offers an answer tells of: one where the event was new.
fn offers_of(answer: &Answer) -> u64
    ensures exact { (stepped : SteppedData) (count : ℕ) → answer.now ≡ cabinet_answer stepped count
        → result ≡ (if is_new stepped then 1 else 0) }
    ensures few { result ≤ 1 }
{
    if is_new(answer) { 1 } else { 0 }
}
