//! Copies that were altered and whose seal matches again.

use crate::cuts::{Cut, expect_cuts};
use crate::masks::{
    EARLIER, FULL, LATER, MISCOUNTED, NEARLY_FULL, OTHER_SETUP, OTHER_UNBALANCED, RICHER,
    UNBALANCED, ZEROED,
};
use gd_base::MemorySource;
use gd_disk::{DISK_LEN, LabDisk, MemoryLab};
use gd_runs::left::{Left, ROOM, SHUT, SOUND_2, expect_whole, push_words};
use gd_runs::runs::{lines, report, trial, zeros};
use gd_store::{CopyState, Found};
use gd_top::Status;
use std::alloc::Global;
use std::process::Abort;
use std::test::Fail;

/// A copy whose seal matches again.
#[derive(Drop)]
struct Forgery<'a> {
    /// The lines before the power is off, and those that they print.
    before: &'a [&'a str],
    printed: &'a [&'a str],
    /// The masks on copy a, and those on copy b.
    a: &'a [&'a [(&'a str, &'a str)]],
    b: &'a [&'a [(&'a str, &'a str)]],
    /// The lines behind `on`, and the report from there.
    behind: &'a [&'a str],
    report: &'a [&'a str],
    status: Status,
    left: Left,
}

const BILL: &[&str] = &["bill 500"];

const BILL_TAKEN: &[&str] = &["ack bill 1 taken at 2"];

/// The mask that shuts an open gate.
const GATE: &[(&str, &str)] = &[("0", "255")];

#[rattlefmt::skip]
const LATER_COPIES: &[Forgery] = &[
    // A later sequence and another view, in either copy: the forged view is opened, and the other copy is written anew.
    Forgery {
        before: &[], printed: &[], a: &[LATER], b: &[],
        behind: &["show state", "as 6 bill 100", "bill 500"],
        report: &["power 2: a sound 7, b sound 1", "start at 8 repaired b", "credit 900", "condition none", "order none", "handpay none", "play none",
            "again bill 6 taken at 8", "ack bill 7 taken at 9", "end at 9 credit 1400"],
        status: Status::Done, left: Left::Sound(9),
    },
    Forgery {
        before: &[], printed: &[], a: &[], b: &[LATER],
        behind: &["bill 500"],
        report: &["power 2: a sound 1, b sound 7", "start at 8 repaired a", "ack bill 7 taken at 9", "end at 9 credit 1400"],
        status: Status::Done, left: Left::Sound(9),
    },
];

/// A forged copy of a later sequence is opened.
#[test]
fn a_forged_copy_of_a_later_sequence(rt: HostRuntime) -> Result<(), Fail> {
    expect_each(rt.alloc(), LATER_COPIES)
}

#[rattlefmt::skip]
const PASSED_OVER: &[Forgery] = &[
    // The same behind a shut gate: the forged copy is written anew.
    Forgery {
        before: &[], printed: &[], a: &[LATER, GATE], b: &[],
        behind: &["bill 500"],
        report: &["power 2: a shut, b sound 1", "start at 2 repaired a", "ack bill 1 taken at 3", "end at 3 credit 500"],
        status: Status::Done, left: Left::Sound(3),
    },
    Forgery {
        before: &[], printed: &[], a: &[OTHER_SETUP, GATE], b: &[],
        behind: &["bill 500"],
        report: &["power 2: a shut, b sound 1", "start at 2 repaired a", "ack bill 1 taken at 3", "end at 3 credit 500"],
        status: Status::Done, left: Left::Sound(3),
    },
    // An earlier sequence: the forged copy is written anew.
    Forgery {
        before: BILL, printed: BILL_TAKEN, a: &[], b: &[EARLIER],
        behind: &["again bill"],
        report: &["power 2: a sound 2, b sound 1", "start at 3 repaired b", "again bill 1 taken at 3", "end at 3 credit 500"],
        status: Status::Done, left: Left::Sound(3),
    },
];

/// A forged copy that is shut or of an earlier sequence is passed over.
#[test]
fn a_forged_copy_that_is_passed_over(rt: HostRuntime) -> Result<(), Fail> {
    expect_each(rt.alloc(), PASSED_OVER)
}

#[rattlefmt::skip]
const OTHER_VIEWS: &[Forgery] = &[
    // The same sequence and another view in one copy: the memory is locked.
    Forgery {
        before: BILL, printed: BILL_TAKEN, a: &[RICHER], b: &[],
        behind: &["show state"],
        report: &["power 2: a sound 2, b sound 2", "locked", "locked", "end locked"],
        status: Status::Locked, left: Left::Locked(SOUND_2),
    },
];

/// A forged copy of the same sequence locks the memory.
#[test]
fn a_forged_copy_of_the_same_sequence(rt: HostRuntime) -> Result<(), Fail> {
    expect_each(rt.alloc(), OTHER_VIEWS)
}

#[rattlefmt::skip]
const IN_BOTH: &[Forgery] = &[
    // In both copies: the forged view is opened.
    Forgery {
        before: BILL, printed: BILL_TAKEN, a: &[RICHER], b: &[RICHER],
        behind: &["again bill"],
        report: &["power 2: a sound 2, b sound 2", "start at 3", "again bill 1 taken at 3", "end at 3 credit 2000"],
        status: Status::Done, left: Left::Sound(3),
    },
];

/// A view that was forged in both copies is opened.
#[test]
fn both_copies_forged(rt: HostRuntime) -> Result<(), Fail> {
    expect_each(rt.alloc(), IN_BOTH)
}

#[rattlefmt::skip]
const NO_VIEWS: &[Forgery] = &[
    // A sequence that isn't the count of the payload, and a payload that spells no view: the memory is locked, though the
    // other copy is whole.
    Forgery {
        before: &[], printed: &[], a: &[MISCOUNTED], b: &[],
        behind: &["bill 500"],
        report: &["power 2: a sound 9, b sound 1", "locked", "locked", "end locked"],
        status: Status::Locked, left: Left::Locked(Found { a: CopyState::Sound(9), b: CopyState::Sound(1) }),
    },
    Forgery {
        before: &[], printed: &[], a: &[], b: &[UNBALANCED],
        behind: &["clear"],
        report: &["power 2: a sound 1, b sound 2", "locked", "cleared", "power 3: a sound 0, b sound 0", "start at 1", "end at 1 credit 0"],
        status: Status::Done, left: Left::Sound(1),
    },
    // No view under another setup either.
    Forgery {
        before: &[], printed: &[], a: &[OTHER_UNBALANCED], b: &[],
        behind: &["bill 500"],
        report: &["power 2: a sound 2, b sound 1", "locked", "locked", "end locked"],
        status: Status::Locked, left: Left::Locked(Found { a: CopyState::Sound(2), b: CopyState::Sound(1) }),
    },
];

/// A forged copy that shows no view locks the memory.
#[test]
fn a_forged_copy_of_no_view(rt: HostRuntime) -> Result<(), Fail> {
    expect_each(rt.alloc(), NO_VIEWS)
}

#[rattlefmt::skip]
const FULL_HISTORIES: &[Forgery] = &[
    // There is no start, and no further entry. Repeats and steps are as ever, also behind a loss of power.
    Forgery {
        before: &[], printed: &[], a: &[FULL], b: &[],
        behind: &["bill 500", "again bill", "as 7 bill 500", "play reels 1", "off", "on", "again bill", "take"],
        report: &["power 2: a sound 68719476736, b sound 1", "full bill", "again bill 68719476735 taken at 68719476736", "step bill expected 68719476736", "full player",
            "off", "power 3: a sound 68719476736, b sound 68719476736", "again bill 68719476735 taken at 68719476736", "full player", "end at 68719476736 credit 500"],
        status: Status::Done, left: Left::Sound(68_719_476_736),
    },
    // The start is the last entry.
    Forgery {
        before: &[], printed: &[], a: &[], b: &[NEARLY_FULL],
        behind: &["bill 500", "again bill"],
        report: &["power 2: a sound 1, b sound 68719476735", "start at 68719476736 repaired a", "full bill", "again bill 68719476734 taken at 68719476736", "end at 68719476736 credit 500"],
        status: Status::Done, left: Left::Sound(68_719_476_736),
    },
];

/// A forged copy of a full history: no other trial comes to one.
#[test]
fn a_forged_full_history(rt: HostRuntime) -> Result<(), Fail> {
    expect_each(rt.alloc(), FULL_HISTORIES)
}

// ================ another setup

/// A memory that was made under another setup.
#[derive(Drop)]
struct Foreign<'a> {
    /// The masks on copy a, and those on copy b.
    a: &'a [(&'a str, &'a str)],
    b: &'a [(&'a str, &'a str)],
    /// The line of the power-on, and the digest that was found.
    power: &'a str,
    kept: &'a str,
}

/// The digest of the built-in setup.
const GIVEN: &str = "52b9d80093ab6a5364b17697949a86777b889bd9198bf1417bd4521e72a89f96";

/// A digest of which the last byte is another.
const OTHER: &str = "52b9d80093ab6a5364b17697949a86777b889bd9198bf1417bd4521e72a89f97";

/// A digest of zeros.
const NONE: &str = "0000000000000000000000000000000000000000000000000000000000000000";

#[rattlefmt::skip]
const FOREIGN_COPIES: &[Foreign] = &[
    Foreign { a: OTHER_SETUP, b: &[], power: "power 2: a sound 2, b sound 1", kept: OTHER },
    Foreign { a: &[], b: OTHER_SETUP, power: "power 2: a sound 1, b sound 2", kept: OTHER },
];

/// Zeros spell the empty view under a digest of zeros. Its count isn't the sequence, which doesn't matter.
#[rattlefmt::skip]
const TWO_FOREIGN: Foreign =
    Foreign { a: ZEROED, b: OTHER_SETUP, power: "power 2: a sound 9, b sound 2", kept: NONE };

/// A memory of another setup ends the run at the opening that finds it. Both digests are told, the lines behind it aren't
/// carried out, no cut comes, and the memory is left byte for byte.
#[test]
fn a_memory_of_another_setup(rt: HostRuntime) -> Result<(), Fail> {
    expect_each_foreign(&rt, rt.alloc(), FOREIGN_COPIES)
}

/// Where both copies are of other setups, the later one is told.
#[test]
fn memories_of_two_other_setups(rt: HostRuntime) -> Result<(), Fail> {
    expect_foreign(&rt, rt.alloc(), &TWO_FOREIGN)
}

fn expect_each_foreign(rt: &impl Abort, alloc: Global, all: &[Foreign]) -> Result<(), Fail> {
    for foreign in all {
        expect_foreign(rt, alloc, foreign)?;
    }
    Ok(())
}

/// Runs a trial up to the power-on over such a memory, and one that goes on.
fn expect_foreign(rt: &impl Abort, alloc: Global, foreign: &Foreign) -> Result<(), Fail> {
    let mut script = lines(alloc, &["cut call 1 1", "off"])?;
    let mut wanted = report(alloc, &["armed", "off"])?;
    push_masks(&mut script, &mut wanted, "a ", foreign.a)?;
    push_masks(&mut script, &mut wanted, "b ", foreign.b)?;

    let source = MemorySource::of(script.clone()?, None);
    let lab = MemoryLab::new(alloc, DISK_LEN)?;
    let mut before = trial(alloc, &["trial"], source, ROOM, lab)?;
    assert_eq!(rt; before.status, Status::Done);
    if before.lab.powered() || before.lab.power_on().is_err() {
        return Err(Fail::new("the power wasn't off, or stays off"));
    }

    push_words(&mut script, &["on\nbill 500\nclear\n"])?;
    push_words(&mut wanted, &[foreign.power, "\ndiffers kept "])?;
    push_words(&mut wanted, &[foreign.kept, " given ", GIVEN, "\n"])?;
    let source = MemorySource::of(script, None);
    let lab = MemoryLab::new(alloc, DISK_LEN)?;
    let behind = trial(alloc, &["trial"], source, ROOM, lab)?;
    assert_eq!(rt; behind.status, Status::SetupDiffers);
    assert_eq!(rt; behind.output.bytes(), wanted.as_slice());
    assert!(rt; behind.falls.as_slice().is_empty());
    assert_eq!(rt; behind.lab.cuts_armed(), 1);
    assert_eq!(rt; behind.lab.powered(), true);
    let left = image(alloc, behind.lab)?;
    assert_eq!(rt; image(alloc, before.lab)?.as_slice(), left.as_slice());
    Ok(())
}

/// The bytes of a disk.
fn image<L: LabDisk + Drop>(alloc: Global, mut lab: L) -> Result<Vec<u8>, Fail> {
    let mut bytes = vec![in alloc; 0; DISK_LEN as usize]?;
    if lab.len() != DISK_LEN || lab.read(0, &mut bytes).is_err() {
        return Err(Fail::new("no bytes were read"));
    }
    Ok(bytes)
}

/// The first call of a clearing shuts a copy that locks the memory, and is cut: what stands in the other copy is of another
/// setup. No line is printed of the clearing.
#[test]
fn a_clearing_that_uncovers_another_setup(rt: HostRuntime) -> Result<(), Fail> {
    let alloc = rt.alloc();
    let mut script = lines(alloc, &["off"])?;
    let mut wanted = report(alloc, &["off"])?;
    push_masks(&mut script, &mut wanted, "a ", MISCOUNTED)?;
    push_masks(&mut script, &mut wanted, "b ", OTHER_SETUP)?;
    push_words(&mut script, &["on\ncut call 1 1\nclear\nbill 500\n"])?;
    push_words(
        &mut wanted,
        &["power 2: a sound 9, b sound 2\nlocked\narmed\npower 3: a shut, b sound 2\n"],
    )?;
    push_words(
        &mut wanted,
        &["differs kept ", OTHER, " given ", GIVEN, "\n"],
    )?;
    let told = Cut {
        script: &[],
        report: &[],
        status: Status::SetupDiffers,
        left: Left::Locked(Found {
            a: SHUT,
            b: CopyState::Sound(2),
        }),
        falls: &[3],
        armed: 0,
    };
    expect_cuts(&rt, alloc, zeros(alloc), script, &wanted, &told)
}

// ================ trials of forgeries

/// Runs a trial of each of these forgeries.
fn expect_each(alloc: Global, forgeries: &[Forgery]) -> Result<(), Fail> {
    for forgery in forgeries {
        expect_forged(alloc, forgery)?;
    }
    Ok(())
}

/// Runs a trial of a forgery.
fn expect_forged(alloc: Global, forgery: &Forgery) -> Result<(), Fail> {
    let mut script = lines(alloc, forgery.before)?;
    let mut wanted = report(alloc, forgery.printed)?;
    script.extend_from_slice(b"off\n")?;
    wanted.extend_from_slice(b"off\n")?;
    for masks in forgery.a {
        push_masks(&mut script, &mut wanted, "a ", masks)?;
    }
    for masks in forgery.b {
        push_masks(&mut script, &mut wanted, "b ", masks)?;
    }
    script.extend_from_slice(b"on\n")?;
    script.extend_from_slice(&lines(alloc, forgery.behind)?)?;
    wanted.extend_from_slice(&lines(alloc, forgery.report)?)?;
    expect_whole(
        alloc,
        zeros(alloc),
        script,
        forgery.status,
        &wanted,
        forgery.left,
    )
}

/// Appends the lines that put masks on a copy, and what they print.
pub(crate) fn push_masks(
    script: &mut Vec<u8>,
    wanted: &mut Vec<u8>,
    side: &str,
    masks: &[(&str, &str)],
) -> Result<(), Fail> {
    for (place, mask) in masks {
        push_words(script, &["alter ", side, *place, " ", *mask, "\n"])?;
        push_words(wanted, &["altered ", side, *place, "\n"])?;
    }
    Ok(())
}
