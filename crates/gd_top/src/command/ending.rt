//! The end of a run: its last line, its status, and what it was handed.

ghost use Rattle.std.specs.Prelude.{◌≡◌, ◌≤◌, ◌⊎◌, false, []};
ghost use Rattle.gd_base.specs.Outside.Causes.{Rose};
ghost use Rattle.gd_disk.specs.Disk.{IsSynced};
ghost use Rattle.gd_image.specs.Words.{platform_setup, platform_view};
ghost use Rattle.gd_machine.specs.Meaning.{the_machine};
ghost use Rattle.gd_top.specs.Claims.MemoryLeft.{IsAtRest, IsSettled};
ghost use Rattle.gd_top.specs.Claims.Runs.{status_after, last_text, GivesLast};
ghost use Rattle.gd_top.specs.Code.Memory.{memory_core, memory_disk, memory_draws, memory_phase, memory_stopped};
ghost use Rattle.gd_top.specs.Run.Life.{end_line, end_status};
ghost use Rattle.gd_top.specs.Run.State.{Off, Locked};

use crate::halt::Halt;
use crate::memory::Memory;
use crate::report::lines::{push_end_line, push_fault_line};
use crate::report::telling::tell;
use crate::script::reader::MOST_LINES;
use crate::status::Status;
use gd_base::{Core, Draws, Sink, Text};
use gd_cabinet::Parts;
use gd_disk::Disk;
use gd_image::Platform;

/// Gives the last line of the report, and answers the status.
pub(crate) fn end_report<K: Sink, D: Disk, W: Draws>(
    memory: &Memory<Platform, D, W>,
    lines: u64,
    ended: Result<(), Halt>,
    output: &mut K,
    text: &mut Text,
) -> Status
    requires { lines ≤ MOST_LINES }
    ensures last { GivesLast (status_after ended (memory_phase memory.now)) result (K.taken output.old)
        (K.taken output.new)
        (last_text (the_machine (platform_setup (memory_core memory.now))) ended (memory_phase memory.now)
        (platform_view (memory_core memory.now)) lines) }
    ensures later { K.faults output.old ≤ K.faults output.new }
    ensures cause { (result ≡ status_after ended (memory_phase memory.now))
        ⊎ ((result ≡ Status.WriteFault) × Rose (K.faults output.old) (K.faults output.new)) }
{
    write_last(text, memory, lines, ended);
    tell(status_after(memory, ended), output, text)
}

/// Writes the last line of a report over what stands in `text`, or nothing where the sink failed or an opening told that the
/// setup differs.
fn write_last<D: Disk, W: Draws>(
    text: &mut Text,
    memory: &Memory<Platform, D, W>,
    lines: u64,
    ended: Result<(), Halt>,
)
    requires { lines ≤ MOST_LINES }
    ensures { text.new.bytes ≡ last_text
        (the_machine (platform_setup (memory_core memory.now))) ended (memory_phase memory.now)
        (platform_view (memory_core memory.now)) lines }
{
    text.clear();
    match ended {
        Ok(()) => push_end(text, memory),
        Err(Halt::ScriptFault) => push_fault_line(text, lines + 1),
        Err(Halt::ReadFault) => text.push_str("read fault\n"),
        Err(Halt::DiskFault) => text.push_str("disk fault\n"),
        Err(Halt::WriteFault | Halt::SetupDiffers) => {}
    }
}

/// The status of a run that ended so.
fn status_after<C: Core, D: Disk, W: Draws>(
    memory: &Memory<C, D, W>,
    ended: Result<(), Halt>,
) -> Status
    ensures { result ≡ status_after ended (memory_phase memory.now) }
{
    match ended {
        Ok(()) => end_status(memory),
        Err(Halt::ScriptFault) => Status::ScriptFault,
        Err(Halt::ReadFault) => Status::ReadFault,
        Err(Halt::DiskFault) => Status::DiskFault,
        Err(Halt::WriteFault) => Status::WriteFault,
        Err(Halt::SetupDiffers) => Status::SetupDiffers,
    }
}

/// The status of a run whose input was read to its end.
fn end_status<C: Core, D: Disk, W: Draws>(memory: &Memory<C, D, W>) -> Status
    ensures { result ≡ end_status (memory_phase memory.now) }
{
    match memory {
        Memory::On(_) | Memory::Off(_) => Status::Done,
        Memory::Locked(_) => Status::Locked,
    }
}

/// Appends the last line of a report whose input was read to its end.
fn push_end<D: Disk, W: Draws>(text: &mut Text, memory: &Memory<Platform, D, W>)
    requires { text.old.bytes ≡ [] }
    ensures { text.new.bytes ≡ end_line
        (the_machine (platform_setup (memory_core memory.now))) (memory_phase memory.now)
        (platform_view (memory_core memory.now)) }
{
    match memory {
        Memory::On(cabinet) => {
            let core = cabinet.core();
            push_end_line(text, core.count(), core.credit());
        }
        Memory::Off(_) => text.push_str("end off\n"),
        Memory::Locked(_) => text.push_str("end locked\n"),
    }
}

/// Gives the parts of a memory back.
pub(crate) fn close<C: Core, D: Disk, W: Draws>(memory: Memory<C, D, W>) -> Parts<C, D, W>
    ensures disk { result.disk ≡ memory_disk memory }
    ensures draws { result.draws ≡ memory_draws memory }
    ensures at_rest { memory_stopped memory ≡ false → (memory_phase memory ≡ Off
        → IsSettled (D.state (memory_disk memory))) → (memory_phase memory ≡ Locked
        → IsSynced (D.state (memory_disk memory)))
        → IsAtRest (memory_phase memory) (D.state result.disk) }
{
    match memory {
        Memory::On(cabinet) => cabinet.close(),
        Memory::Off(parts) => parts,
        Memory::Locked(parts) => parts,
    }
}
