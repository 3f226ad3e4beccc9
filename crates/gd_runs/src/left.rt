//! Trials by what they leave: copies that are sound, damaged or locked, with the power on or off.

use crate::runs::{are_sound, lines, report, trial_with_draws};
use gd_base::{Draws, MemorySource};
use gd_disk::{DISK_LEN, LabDisk, MemoryLab};
use gd_store::{Booted, CopyState, Found, Room, Why, boot};
use gd_top::Status;
use std::alloc::Global;
use std::test::Fail;

/// What a trial leaves.
#[derive(Clone, Copy, Debug, PartialEq, Eq, Drop)]
pub enum Left {
    /// The power on, and both copies sound at this count.
    Sound(u64),
    /// The power on over copies that are found so.
    Locked(Found),
    /// The power off. At the next power-on the copies are found so.
    Off(Found),
}

/// A trial over a new memory.
#[derive(Drop)]
pub struct Altered<'a> {
    /// The lines of the script.
    pub script: &'a [&'a str],
    /// What the trial ends with.
    pub status: Status,
    /// The lines of the report behind those of the opening.
    pub report: &'a [&'a str],
    /// What the trial leaves.
    pub left: Left,
}

/// The most bytes of a report.
pub const ROOM: usize = 40_000;

/// A copy whose gate is shut.
pub const SHUT: CopyState = CopyState::Bad(Why::Shut);

/// Both copies of a memory that was made.
pub const SOUND_0: Found = Found {
    a: CopyState::Sound(0),
    b: CopyState::Sound(0),
};

/// Both copies sound at the count 1.
pub const SOUND_1: Found = Found {
    a: CopyState::Sound(1),
    b: CopyState::Sound(1),
};

/// Both copies sound at the count 2.
pub const SOUND_2: Found = Found {
    a: CopyState::Sound(2),
    b: CopyState::Sound(2),
};

/// Runs a trial of this script with these draws: its status, its whole report and what it leaves are as wanted.
pub fn expect_whole<W: Draws + Drop>(
    alloc: Global,
    draws: W,
    script: Vec<u8>,
    status: Status,
    report: &[u8],
    left: Left,
) -> Result<(), Fail> {
    let source = MemorySource::of(script, None);
    let lab = MemoryLab::new(alloc, DISK_LEN)?;
    let run = trial_with_draws(alloc, &["trial"], source, ROOM, lab, draws)?;
    if run.status != status {
        return Err(Fail::new("another status"));
    }
    if run.output.bytes() != report {
        return Err(Fail::new("another report"));
    }
    expect_left(alloc, run.lab, left)
}

/// The same of a row.
pub fn expect<W: Draws + Drop>(alloc: Global, draws: W, wanted: &Altered) -> Result<(), Fail> {
    let script = lines(alloc, wanted.script)?;
    let report = report(alloc, wanted.report)?;
    expect_whole(alloc, draws, script, wanted.status, &report, wanted.left)
}

/// The laboratory is left so.
pub fn expect_left<L: LabDisk + Drop>(alloc: Global, mut lab: L, left: Left) -> Result<(), Fail> {
    match left {
        Left::Sound(count) => {
            if !lab.powered() {
                return Err(Fail::new("the power is off"));
            }
            are_sound(alloc, lab, count)
        }
        Left::Locked(wanted) => {
            if !lab.powered() {
                return Err(Fail::new("the power is off"));
            }
            are_found(alloc, lab, wanted)
        }
        Left::Off(wanted) => {
            if lab.powered() {
                return Err(Fail::new("the power is on"));
            }
            if lab.power_on().is_err() {
                return Err(Fail::new("the power stays off"));
            }
            are_found(alloc, lab, wanted)
        }
    }
}

/// The copies are found so.
fn are_found<L: LabDisk + Drop>(alloc: Global, mut lab: L, wanted: Found) -> Result<(), Fail> {
    let mut room = Room::new(alloc)?;
    if lab.len() != DISK_LEN {
        return Err(Fail::new("another length"));
    }
    match boot(&mut lab, &mut room) {
        Booted::Ready { found, .. } | Booted::Lost(found) => {
            if found != wanted {
                return Err(Fail::new("the copies are found otherwise"));
            }
            Ok(())
        }
        Booted::Off => Err(Fail::new("no copy was read")),
    }
}

/// Appends words.
pub fn push_words(bytes: &mut Vec<u8>, words: &[&str]) -> Result<(), Fail> {
    for word in words {
        bytes.extend_from_slice(word.as_bytes())?;
    }
    Ok(())
}
