//! The opening of a closed memory, as often as a cut comes in it.

ghost use Rattle.std.specs.Prelude.{◌≡◌, ◌⊎◌, ◌+◌, ◌*◌, ◌<◌, ◌≤◌, ◌++◌, ◌||◌, true, false, List, ℕ, Ok, Err, OnOk, OnErr, Some};
ghost use Rattle.arrayvec.specs.ArrayString.{array_string_len};
ghost use Rattle.gd_disk.specs.Disk.{Unchanged};
ghost use Rattle.gd_disk.specs.Runs.{LeavesOnly};
ghost use Rattle.gd_disk.specs.declared.lengths.TheConstants.{DISK_LEN};
ghost use Rattle.gd_store.specs.OpenAnswer.{IsOpenable};
ghost use Rattle.gd_store.specs.Repair.{repair_needed};
ghost use Rattle.gd_store.specs.Writing.{From};
ghost use Rattle.gd_top.specs.Code.Memory.{moment, moment_closed, unless_failed, IsDown, IsLapFound, LeavesDisk, Opens, Reopens};
ghost use Rattle.gd_top.specs.Report.Lines.{differs_line, is_copy_full, is_found_full, locked_line, power_line, start_text};
ghost use Rattle.gd_top.specs.Run.State.{Off};

use crate::halt::Halt;
use crate::item::emptiness::is_empty;
use crate::memory::Memory;
use crate::memory::counts::Counts;
use crate::report::lines::{
    give_text, push_differs_line, push_locked_line, push_power_line, push_start_line,
};
use crate::script::reader::MOST_LINES;
use gd_base::{Core, Draws, MOST_ENTRIES, Sink, Text};
use gd_cabinet::{Cabinet, CabinetOpened, Parts};
use gd_disk::LabDisk;
use gd_store::{Booted, CopyState, Found, boot};

/// How an opening went on.
#[derive(Clone, Copy, Debug, PartialEq, Eq)]
pub(crate) enum Opened {
    /// The memory stands, open or locked.
    Stands,
    /// A cut came in it, and the power is off.
    Fell,
}

/// Turns the power on and opens the memory, as often as a cut comes in that. No making is in flight.
pub(crate) fn reopen<C: Core, K: Sink, L: LabDisk, W: Draws>(
    parts: Parts<C, L, W>,
    counts: &mut Counts,
    output: &mut K,
    text: &mut Text,
) -> (Memory<C, L, W>, Result<(), Halt>)
    requires down { IsDown
        (moment_closed Off C.meaning C.view L.state W.block_of K.taken K.faults parts counts.old output.old) }
    requires few { counts.old.offers ≤ MOST_LINES + 2 * counts.old.power_ons }
    ensures does { Reopens result.1
        (moment_closed Off C.meaning C.view L.state W.block_of K.taken K.faults parts counts.old output.old)
        (moment C.meaning C.view L.state W.block_of K.taken K.faults result.0 counts.new output.new) }
    ensures lines { counts.new.lines ≡ counts.old.lines }
{
    let mut parts = parts;
    loop {
        let (memory, ended) = open_once(parts, counts, output, text, false);
        match ended {
            Ok(Opened::Stands) => return (memory, Ok(())),
            Ok(Opened::Fell) => {
                let Memory::Off(left) = memory else {
                    unreachable!();
                };
                parts = left;
            }
            Err(halt) => return (memory, Err(halt)),
        }
    }
}

/// Turns the power on, opens the memory, and prints what was found and the start, or that the memory is locked. A cut that
/// comes in it is counted. Where a making is in flight, the lap is raised if the empty memory is found. Over a memory that was
/// made under another setup the run ends, and nothing is written.
pub(crate) fn open_once<C: Core, K: Sink, L: LabDisk, W: Draws>(
    mut parts: Parts<C, L, W>,
    counts: &mut Counts,
    output: &mut K,
    text: &mut Text,
    is_making: bool,
) -> (Memory<C, L, W>, Result<Opened, Halt>)
    requires down { IsDown
        (moment_closed Off C.meaning C.view L.state W.block_of K.taken K.faults parts counts.old output.old) }
    requires few { counts.old.offers ≤ MOST_LINES + 2 * counts.old.power_ons }
    requires making { is_making ≡ true → counts.old.lap < counts.old.power_ons }
    ensures does { Opens is_making result.1
        (moment_closed Off C.meaning C.view L.state W.block_of K.taken K.faults parts counts.old output.old)
        (moment C.meaning C.view L.state W.block_of K.taken K.faults result.0 counts.new output.new) }
    ensures lines { counts.new.lines ≡ counts.old.lines }
{
    if parts.disk.power_on().is_err() {
        return (Memory::Off(parts), Err(Halt::DiskFault));
    }
    counts.power_ons += 1;
    if find_lap(&mut parts, counts, text, is_making).is_err() {
        return (Memory::Off(parts), Err(Halt::DiskFault));
    }
    let armed = parts.disk.cuts_armed();
    match Cabinet::open(parts, counts.lap) {
        CabinetOpened::Ready { cabinet, found } => {
            counts.offers += 1;
            let count = cabinet.core().count();
            write_opening(text, counts.power_ons, &found, count);
            let given = give_text(output, text);
            (
                Memory::On(cabinet),
                unless_failed(given, Ok(Opened::Stands)),
            )
        }
        CabinetOpened::Locked { found, parts, .. } => {
            counts.offers += 1;
            write_locked(text, counts.power_ons, &found);
            let given = give_text(output, text);
            (
                Memory::Locked(parts),
                unless_failed(given, Ok(Opened::Stands)),
            )
        }
        CabinetOpened::Off {
            found: Some(found),
            parts,
        } => {
            counts.offers += 1;
            write_power_line(text, counts.power_ons, &found);
            let given = give_text(output, text);
            if parts.disk.cuts_armed() < armed {
                counts.fall();
                return (Memory::Off(parts), unless_failed(given, Ok(Opened::Fell)));
            }
            (
                Memory::Off(parts),
                unless_failed(given, Err(Halt::DiskFault)),
            )
        }
        CabinetOpened::Off { found: None, parts } => (Memory::Off(parts), Err(Halt::DiskFault)),
        CabinetOpened::Differs { kept, found, parts } => {
            counts.offers += 1;
            write_differs(text, counts.power_ons, &found, &kept, &counts.given);
            let given = give_text(output, text);
            (
                Memory::Locked(parts),
                unless_failed(given, Err(Halt::SetupDiffers)),
            )
        }
    }
}

/// What comes next, unless the sink failed before it.
fn unless_failed(given: Result<(), Halt>, next: Result<Opened, Halt>) -> Result<Opened, Halt>
    ensures { result ≡ unless_failed given next }
{
    match given {
        Ok(()) => next,
        Err(halt) => Err(halt),
    }
}

/// Raises the lap where a making is in flight and the empty memory is found. It fails where the copies can't be read.
fn find_lap<C: Core, L: LabDisk, W: Draws>(
    parts: &mut Parts<C, L, W>,
    counts: &mut Counts,
    text: &mut Text,
    is_making: bool,
) -> Result<(), Halt>
    requires size { (L.state parts.old.disk).size ≡ DISK_LEN }
    requires is_on { (L.state parts.old.disk).is_on ≡ true }
    requires room { counts.old.lap < counts.old.power_ons }
    ensures lap { OnOk result (IsLapFound is_making (C.meaning parts.old.core) (L.state parts.old.disk) counts.old.lap counts.new.lap) }
    ensures kept { OnErr result (counts.new.lap ≡ counts.old.lap) }
    ensures disk { LeavesDisk result (L.state parts.old.disk) (L.state parts.new.disk) }
    ensures meaning { C.meaning parts.new.core ≡ C.meaning parts.old.core }
    ensures draws { parts.new.draws ≡ parts.old.draws }
    ensures counts { counts.new ≡ record counts.old { lap = counts.new.lap } }
{
    if !is_making {
        return Ok(());
    }
    match boot(&mut parts.disk, &mut parts.room) {
        Booted::Off => Err(Halt::DiskFault),
        Booted::Lost(_) => Ok(()),
        Booted::Ready { sequence, .. } => {
            if sequence == 0 && is_empty(&mut parts.core, parts.room.payload(), text) {
                counts.lap += 1;
            }
            Ok(())
        }
    }
}

/// Writes the line of power-on `number` and of its start over what stands in `text`. There is no start where the history
/// that was found is full.
pub(crate) fn write_opening(text: &mut Text, number: u64, found: &Found, count: u64)
    ensures { text.new.bytes
        ≡ power_line number found.now ++ start_text (is_found_full found.now) count (repair_needed found.now) }
{
    write_power_line(text, number, found);
    if !is_found_full(found) {
        push_start_line(text, count, found);
    }
}

/// Whether the later sequence of the two copies is that of a full history.
fn is_found_full(found: &Found) -> bool
    ensures { result ≡ is_found_full found.now }
{
    is_copy_full(found.a) || is_copy_full(found.b)
}

/// Whether a copy is sound at the sequence of a full history.
fn is_copy_full(state: CopyState) -> bool
    ensures { result ≡ is_copy_full state }
{
    match state {
        CopyState::Sound(sequence) => sequence >= MOST_ENTRIES,
        CopyState::Bad(_) => false,
    }
}

/// Writes the line of power-on `number`, and that the memory is locked, over what stands in `text`.
pub(crate) fn write_locked(text: &mut Text, number: u64, found: &Found)
    ensures { text.new.bytes ≡ power_line number found.now ++ locked_line }
{
    write_power_line(text, number, found);
    push_locked_line(text);
}

/// Writes the line of power-on `number`, and that the memory was made under another setup, over what stands in `text`.
pub(crate) fn write_differs(
    text: &mut Text,
    number: u64,
    found: &Found,
    kept: &[u8; 32],
    given: &[u8; 32],
)
    ensures { text.new.bytes ≡ power_line number found.now ++ differs_line kept.now given.now }
{
    write_power_line(text, number, found);
    push_differs_line(text, kept, given);
}

/// Writes the line of power-on `number` over what stands in `text`. At most 87 bytes.
pub(crate) fn write_power_line(text: &mut Text, number: u64, found: &Found)
    ensures bytes { text.new.bytes ≡ power_line number found.now }
    ensures room { array_string_len text.new ≤ 87 }
{
    text.clear();
    push_power_line(text, number, found);
}
