//! A run over an image: the memory of a disk is opened, a script is carried out on it, and a report of that is written.

ghost use Rattle.std.specs.Prelude.{◌≡◌, ◌≤◌, [], Err};
ghost use Rattle.gd_base.specs.Laws.TellsViews.{HasPayload, TellsViews};
ghost use Rattle.gd_base.specs.Outside.Causes.{Rose};
ghost use Rattle.gd_image.specs.Words.{platform_setup, platform_view};
ghost use Rattle.gd_machine.specs.Meaning.{the_machine};
ghost use Rattle.gd_store.specs.OpenAnswer.{IsOpenable};
ghost use Rattle.gd_top.specs.Claims.ImageRuns.{laboratory, ImageRunDid, TellsImages};
ghost use Rattle.gd_top.specs.Claims.Runs.{outer, HasCauses};
ghost use Rattle.gd_top.specs.Code.Memory.{moment, moment_closed, IsFresh};
ghost use Rattle.gd_top.specs.Code.OverImage.{Ends, RunOver};
ghost use Rattle.gd_top.specs.Run.State.{Off};

use crate::command::ending::{close, end_report};
use crate::halt::Halt;
use crate::image::carrying::carry_lines;
use crate::image::opening::open;
use crate::memory::Memory;
use crate::memory::counts::Counts;
use crate::script::reader::MOST_LINES;
use crate::status::Status;
use gd_base::{Core, Draws, Sink, Source, Text};
use gd_cabinet::Parts;
use gd_disk::{DISK_LEN, Disk};
use gd_image::Platform;

/// Opens the memory of the disk, and carries out the script of the input. It gives back the disk and the source of blocks.
pub(crate) fn run_image<S: Source, K: Sink, D: Disk, W: Draws>(
    parts: Parts<Platform, D, W>,
    input: &mut S,
    output: &mut K,
) -> (Status, D, W)
    requires empty { platform_view parts.core ≡ (the_machine (platform_setup parts.core)).empty }
    requires size { (D.state parts.disk).size ≡ DISK_LEN }
    requires openable { IsOpenable (D.state parts.disk) }
    ensures done { ImageRunDid (TellsImages D.state) (the_machine (platform_setup parts.core)) (W.block_of parts.draws) result.0
        (outer S.left S.faults K.taken K.faults D.state input.old output.old parts.disk)
        (outer S.left S.faults K.taken K.faults D.state input.new output.new result.1) }
    ensures causes { HasCauses result.0
        (laboratory [] (outer S.left S.faults K.taken K.faults D.state input.old output.old parts.disk))
        (laboratory [] (outer S.left S.faults K.taken K.faults D.state input.new output.new result.1)) }
{
    let mut text = Text::new();
    let mut counts = Counts::new(*parts.core.digest());
    let (memory, ended) = carry_script(parts, &mut counts, input, output, &mut text);
    let status = end_report(&memory, counts.lines, ended, output, &mut text);
    let parts = close(memory);
    (status, parts.disk, parts.draws)
}

/// Opens the memory, and carries out the lines of the input.
fn carry_script<C: Core, S: Source, K: Sink, D: Disk, W: Draws>(
    parts: Parts<C, D, W>,
    counts: &mut Counts,
    input: &mut S,
    output: &mut K,
    text: &mut Text,
) -> (Memory<C, D, W>, Result<(), Halt>)
    requires size { (D.state parts.disk).size ≡ DISK_LEN }
    requires openable { IsOpenable (D.state parts.disk) }
    requires tells { TellsViews (C.meaning parts.core) }
    requires payload { HasPayload (C.meaning parts.core) (C.meaning parts.core).empty }
    requires fresh { IsFresh counts.old }
    requires given { counts.old.given ≡ (C.meaning parts.core).digest }
    ensures done { RunOver (TellsImages D.state) result.1
        (moment_closed Off C.meaning C.view D.state W.block_of K.taken K.faults parts counts.old output.old)
        (moment C.meaning C.view D.state W.block_of K.taken K.faults result.0 counts.new output.new)
        (S.left input.old) (S.left input.new) }
    ensures ends { Ends result.1
        (moment_closed Off C.meaning C.view D.state W.block_of K.taken K.faults parts counts.old output.old)
        (moment C.meaning C.view D.state W.block_of K.taken K.faults result.0 counts.new output.new) }
    ensures lines { counts.new.lines ≤ MOST_LINES }
    ensures later { S.faults input.old ≤ S.faults input.new }
    ensures read_fault { result.1 ≡ Err Halt.ReadFault
        → Rose (S.faults input.old) (S.faults input.new) }
{
    let (memory, ended) = open(parts, counts, output, text);
    if ended.is_err() {
        return (memory, ended);
    }
    carry_lines(memory, counts, input, output, text)
}
