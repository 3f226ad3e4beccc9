//! A trial: a memory is made on the laboratory, a script is carried out on it, and a report of that is written.

ghost use Rattle.std.specs.Prelude.{◌≡◌, ◌≤◌, true, [], Err};
ghost use Rattle.gd_base.specs.Outside.Causes.{Rose};
ghost use Rattle.gd_base.specs.Laws.TellsViews.{TellsViews};
ghost use Rattle.gd_image.specs.Words.{platform_setup, platform_view};
ghost use Rattle.gd_machine.specs.Meaning.{the_machine};
ghost use Rattle.gd_top.specs.Claims.Runs.{outer, HasCauses, TrialDone};
ghost use Rattle.gd_top.specs.Code.LinesDone.{RunDone};
ghost use Rattle.gd_top.specs.Code.Memory.{moment, moment_closed, IsFresh, Leaves};
ghost use Rattle.gd_top.specs.Run.State.{Off};

use crate::command::ending::{close, end_report};
use crate::ended::Carried;
use crate::halt::Halt;
use crate::item::opening::reopen;
use crate::memory::Memory;
use crate::memory::counts::Counts;
use crate::memory::making::make_memory;
use crate::script::carrying::carry_lines;
use crate::script::reader::MOST_LINES;
use gd_base::{Core, Draws, Sink, Source, Text};
use gd_cabinet::Parts;
use gd_disk::{DISK_LEN, LabDisk};
use gd_image::Platform;

/// Makes an empty memory on the laboratory, turns it off and on, opens it, and carries out the script of the input.
pub(crate) fn run_trial<S: Source, K: Sink, L: LabDisk, W: Draws>(
    parts: Parts<Platform, L, W>,
    input: &mut S,
    output: &mut K,
) -> Carried<L, W>
    requires empty { platform_view parts.core ≡ (the_machine (platform_setup parts.core)).empty }
    requires size { (L.state parts.disk).size ≡ DISK_LEN }
    requires is_on { (L.state parts.disk).is_on ≡ true }
    requires armed { (L.state parts.disk).armed ≡ [] }
    requires found { (L.state parts.disk).found ≡ [] }
    ensures done { TrialDone (the_machine (platform_setup parts.core)) (W.block_of parts.draws) result.status
        result.falls.items
        (outer S.left S.faults K.taken K.faults L.state input.old output.old parts.disk)
        (outer S.left S.faults K.taken K.faults L.state input.new output.new result.lab) }
    ensures causes { HasCauses result.status
        (outer S.left S.faults K.taken K.faults L.state input.old output.old parts.disk)
        (outer S.left S.faults K.taken K.faults L.state input.new output.new result.lab) }
{
    let mut text = Text::new();
    let mut counts = Counts::new(*parts.core.digest());
    let (memory, ended) = carry_script(parts, &mut counts, input, output, &mut text);
    let status = end_report(&memory, counts.lines, ended, output, &mut text);
    let parts = close(memory);
    Carried {
        status,
        falls: counts.falls,
        lab: parts.disk,
        draws: parts.draws,
    }
}

/// Makes a memory, opens it, and carries out the lines of the input.
fn carry_script<C: Core, S: Source, K: Sink, L: LabDisk, W: Draws>(
    parts: Parts<C, L, W>,
    counts: &mut Counts,
    input: &mut S,
    output: &mut K,
    text: &mut Text,
) -> (Memory<C, L, W>, Result<(), Halt>)
    requires empty { C.view parts.core ≡ (C.meaning parts.core).empty }
    requires size { (L.state parts.disk).size ≡ DISK_LEN }
    requires is_on { (L.state parts.disk).is_on ≡ true }
    requires armed { (L.state parts.disk).armed ≡ [] }
    requires found { (L.state parts.disk).found ≡ [] }
    requires tells { TellsViews (C.meaning parts.core) }
    requires fresh { IsFresh counts.old }
    requires given { counts.old.given ≡ (C.meaning parts.core).digest }
    ensures done { RunDone result.1
        (moment_closed Off C.meaning C.view L.state W.block_of K.taken K.faults parts counts.old output.old)
        (moment C.meaning C.view L.state W.block_of K.taken K.faults result.0 counts.new output.new)
        (S.left input.old) (S.left input.new) }
    ensures leaves { Leaves result.1
        (moment_closed Off C.meaning C.view L.state W.block_of K.taken K.faults parts counts.old output.old)
        (moment C.meaning C.view L.state W.block_of K.taken K.faults result.0 counts.new output.new) }
    ensures lines { counts.new.lines ≤ MOST_LINES }
    ensures later { S.faults input.old ≤ S.faults input.new }
    ensures read_fault { result.1 ≡ Err Halt.ReadFault
        → Rose (S.faults input.old) (S.faults input.new) }
{
    match make_memory(parts) {
        Ok(made) => {
            let (memory, ended) = reopen(made, counts, output, text);
            if ended.is_err() {
                return (memory, ended);
            }
            carry_lines(memory, counts, input, output, text)
        }
        Err(left) => (Memory::Off(left), Err(Halt::DiskFault)),
    }
}
