//! Cuts of the power in an event: what is found, what is printed, and in which offers cuts came that count calls.

use gd_base::{Draws, ListDraws, MemorySource};
use gd_disk::{DISK_LEN, LabDisk, MemoryLab};
use gd_runs::draws::{scatters, three_scatters};
use gd_runs::left::{Left, ROOM, SOUND_2, expect_left, push_words};
use gd_runs::locks::{LOCK, LOCK_REPORT, LOST};
use gd_runs::runs::{lines, report, trial_with_draws, zeros};
use gd_top::Status;
use std::alloc::Global;
use std::process::Abort;
use std::test::Fail;

/// A trial over a new memory.
#[derive(Drop)]
pub(crate) struct Cut<'a> {
    /// The lines of the script.
    pub(crate) script: &'a [&'a str],
    /// The lines of the report behind those of the opening.
    pub(crate) report: &'a [&'a str],
    pub(crate) status: Status,
    pub(crate) left: Left,
    /// The numbers of the offers in which cuts came that count calls. The first opening is offer 1.
    pub(crate) falls: &'a [u32],
    /// How many cuts are armed at the end.
    pub(crate) armed: u32,
}

/// Runs a trial of a script with these draws: its whole report, and what else is told of a row, are as wanted.
pub(crate) fn expect_cuts<W: Draws + Drop>(
    rt: &impl Abort,
    alloc: Global,
    draws: W,
    script: Vec<u8>,
    report: &[u8],
    wanted: &Cut,
) -> Result<(), Fail> {
    let source = MemorySource::of(script, None);
    let lab = MemoryLab::new(alloc, DISK_LEN)?;
    let run = trial_with_draws(alloc, &["trial"], source, ROOM, lab, draws)?;
    assert_eq!(rt; run.output.bytes(), report);
    assert_eq!(rt; run.status, wanted.status);
    assert_eq!(rt; run.falls.as_slice(), wanted.falls);
    assert_eq!(rt; run.lab.cuts_armed(), wanted.armed);
    expect_left(alloc, run.lab, wanted.left)
}

/// The same of a row.
pub(crate) fn expect<W: Draws + Drop>(
    rt: &impl Abort,
    alloc: Global,
    draws: W,
    wanted: &Cut,
) -> Result<(), Fail> {
    let script = lines(alloc, wanted.script)?;
    let report = report(alloc, wanted.report)?;
    expect_cuts(rt, alloc, draws, script, &report, wanted)
}

/// The same of each row, with blocks of zeros.
pub(crate) fn expect_each(rt: &impl Abort, alloc: Global, rows: &[Cut]) -> Result<(), Fail> {
    for row in rows {
        expect(rt, alloc, zeros(alloc), row)?;
    }
    Ok(())
}

// ================ a bill

/// The bill was in neither copy: it is taken when it is offered again.
#[test]
fn cut_before_first_copy(rt: HostRuntime) -> Result<(), Fail> {
    let wanted = Cut {
        script: &["cut sync 1 0", "bill 500"],
        report: &[
            "armed",
            "power 2: a sound 1, b sound 1",
            "start at 2",
            "ack bill 1 taken at 3",
            "end at 3 credit 500",
        ],
        status: Status::Done,
        left: Left::Sound(3),
        falls: &[],
        armed: 0,
    };
    expect(&rt, rt.alloc(), zeros(rt.alloc()), &wanted)
}

/// The bill was in copy a: it stands, and gets the kept reply when it is offered again.
#[test]
fn cut_between_copies(rt: HostRuntime) -> Result<(), Fail> {
    let wanted = Cut {
        script: &["cut sync 3 1", "bill 500"],
        report: &[
            "armed",
            "power 2: a sound 2, b sound 1",
            "start at 3 repaired b",
            "again bill 1 taken at 3",
            "end at 3 credit 500",
        ],
        status: Status::Done,
        left: Left::Sound(3),
        falls: &[],
        armed: 0,
    };
    expect(&rt, rt.alloc(), zeros(rt.alloc()), &wanted)
}

/// The calls of a first bill, from the first to the last of these, and kinds of a cut: what it leaves of the copies. A copy is
/// written by a write and a sync for the gate, which is shut, by three writes and a sync for its front and the two pages that
/// change, which are that of the head and that of the bills, and by a write and a sync for the gate, which is opened.
#[rattlefmt::skip]
const FOUND: &[(usize, usize, &[usize], &str, &str)] = &[
    (1, 2, &[0, 2, 3], "sound 1", "sound 1"),
    (1, 2, &[1], "shut", "sound 1"),
    (3, 6, &[0, 1, 2, 3], "shut", "sound 1"),
    (7, 8, &[0, 2], "shut", "sound 1"),
    (7, 8, &[1, 3], "sound 2", "sound 1"),
    (9, 10, &[0, 2, 3], "sound 2", "sound 1"),
    (9, 10, &[1], "sound 2", "shut"),
    (11, 14, &[0, 1, 2, 3], "sound 2", "shut"),
    (15, 16, &[0, 2], "sound 2", "shut"),
    (15, 16, &[1, 3], "sound 2", "sound 2"),
];

/// The most calls that a cut counts here: a bill has as many as `CALLS`.
#[rattlefmt::skip]
const NUMBERS: [&str; 24] = [
    "1", "2", "3", "4", "5", "6", "7", "8", "9", "10", "11", "12", "13", "14", "15", "16", "17", "18", "19", "20", "21", "22", "23", "24",
];

/// How many calls a bill has.
const CALLS: usize = 16;

/// The kinds of a cut.
const KINDS: [&str; 4] = ["0", "1", "2", "3"];

/// The bill is offer 2.
const BILL_OFFER: &[u32] = &[2];

/// A cut at each call by which the bill comes to copy a, of each kind.
#[test]
fn cut_at_each_call_in_copy_a(rt: HostRuntime) -> Result<(), Fail> {
    expect_calls(&rt, rt.alloc(), 1, CALLS / 2)
}

/// A cut at each call by which it comes to copy b.
#[test]
fn cut_at_each_call_in_copy_b(rt: HostRuntime) -> Result<(), Fail> {
    expect_calls(&rt, rt.alloc(), CALLS / 2 + 1, CALLS)
}

/// A cut at each call from the first to the last of these, of each kind.
fn expect_calls(rt: &impl Abort, alloc: Global, from: usize, to: usize) -> Result<(), Fail> {
    for (first, last, kinds, a, b) in FOUND {
        if from <= *first && *last <= to {
            for call in *first..=*last {
                for kind in *kinds {
                    expect_found(rt, alloc, call, *kind, a, b)?;
                }
            }
        }
    }
    Ok(())
}

/// A bill under a cut at this call, which leaves the copies so: the bill stands where copy a is sound at 2.
fn expect_found(
    rt: &impl Abort,
    alloc: Global,
    call: usize,
    kind: usize,
    a: &str,
    b: &str,
) -> Result<(), Fail> {
    let script = bill_under_cut(alloc, call, kind)?;
    let mut wanted = report(alloc, &["armed"])?;
    push_words(&mut wanted, &["power 2: a ", a, ", b ", b, "\n"])?;
    let stands = a == "sound 2";
    let behind = if !stands && a == "shut" {
        "start at 2 repaired a\nack bill 1 taken at 3\n"
    } else if !stands {
        "start at 2\nack bill 1 taken at 3\n"
    } else if b == "sound 2" {
        "start at 3\nagain bill 1 taken at 3\n"
    } else {
        "start at 3 repaired b\nagain bill 1 taken at 3\n"
    };
    push_words(&mut wanted, &[behind, "end at 3 credit 500\n"])?;
    let told = Cut {
        script: &[],
        report: &[],
        status: Status::Done,
        left: Left::Sound(3),
        falls: BILL_OFFER,
        armed: 0,
    };
    expect_cuts(rt, alloc, zeros(alloc), script, &wanted, &told)
}

/// A cut by more calls than the bill has: it isn't reached, and stays armed.
#[test]
fn cut_behind_the_calls_of_a_bill(rt: HostRuntime) -> Result<(), Fail> {
    let wanted = report(
        rt.alloc(),
        &["armed", "ack bill 1 taken at 2", "end at 2 credit 500"],
    )?;
    let told = Cut {
        script: &[],
        report: &[],
        status: Status::Done,
        left: Left::Sound(2),
        falls: &[],
        armed: 1,
    };
    for call in CALLS + 1..=NUMBERS.len() {
        for kind in 0..KINDS.len() {
            let script = bill_under_cut(rt.alloc(), call, kind)?;
            expect_cuts(&rt, rt.alloc(), zeros(rt.alloc()), script, &wanted, &told)?;
        }
    }
    Ok(())
}

/// The script of a bill under a cut at this call, counted from 1.
fn bill_under_cut(alloc: Global, call: usize, kind: usize) -> Result<Vec<u8>, Fail> {
    let mut script = Vec::new(alloc);
    let number = NUMBERS
        .get(call.saturating_sub(1))
        .copied()
        .unwrap_or("none");
    let torn = KINDS.get(kind).copied().unwrap_or("none");
    push_words(
        &mut script,
        &["cut call ", number, " ", torn, "\nbill 500\n"],
    )?;
    Ok(script)
}

// ================ a play

/// Two blocks of zeros, and the one of three scatters behind them.
pub(crate) fn scatters_in_block_2(alloc: Global) -> Result<ListDraws, Fail> {
    Ok(ListDraws::of(vec![in alloc; [0; 16], [0; 16], scatters()]?))
}

#[rattlefmt::skip]
const PLAY_ON_BLOCK_2: Cut = Cut {
    script: &["bill 500", "cut sync 2 0", "play reels 9", "show state"],
    report: &["ack bill 1 taken at 2", "armed", "power 2: a shut, b sound 2", "start at 3 repaired a", "ack player 1 taken at 4",
        "credit 455", "condition none", "order none", "handpay none", "play 1 block 2 reels bet 9 wager 45",
        "window SSSFC AFACF BEDEB", "stage pick win 0", "end at 4 credit 455"],
    status: Status::Done, left: Left::Sound(4), falls: &[], armed: 0,
};

#[rattlefmt::skip]
const PLAY_KEPT: Cut = Cut {
    script: &["bill 500", "cut sync 3 1", "play reels 9", "again player", "show state"],
    report: &["ack bill 1 taken at 2", "armed", "power 2: a sound 3, b sound 2", "start at 4 repaired b", "again player 1 taken at 4",
        "again player 1 taken at 4", "credit 455", "condition none", "order none", "handpay none",
        "play 1 block 1 reels bet 9 wager 45", "window SSSFC AFACF BEDEB", "stage pick win 0", "end at 4 credit 455"],
    status: Status::Done, left: Left::Sound(4), falls: &[], armed: 0,
};

/// A play that was in one copy keeps its block, and one that was in neither takes the next.
#[test]
fn blocks_of_a_play_under_a_cut(rt: HostRuntime) -> Result<(), Fail> {
    let second = scatters_in_block_2(rt.alloc())?;
    expect(&rt, rt.alloc(), second, &PLAY_ON_BLOCK_2)?;
    expect(&rt, rt.alloc(), three_scatters(rt.alloc())?, &PLAY_KEPT)
}

#[rattlefmt::skip]
const CUT_IN_A_PLAY: Cut = Cut {
    script: &["bill 500", "cut sync 2 0", "play reels 1", "show recall"],
    report: &["ack bill 1 taken at 2", "armed", "power 2: a shut, b sound 2", "start at 3 repaired a", "ack player 1 taken at 4",
        "recall 1", "play 1 block 2 reels bet 1 wager 5", "window WSAFC AFDCF BEBEB", "win 0 before 500 after 495",
        "end at 4 credit 495"],
    status: Status::Done, left: Left::Sound(4), falls: &[], armed: 0,
};

/// A play that was cut before a copy had it is drawn anew. Block 1 is passed over.
#[test]
fn cut_in_a_play(rt: HostRuntime) -> Result<(), Fail> {
    expect(&rt, rt.alloc(), zeros(rt.alloc()), &CUT_IN_A_PLAY)
}

// ================ cuts that stay armed

#[rattlefmt::skip]
const STAY_ARMED: &[Cut] = &[
    // It isn't reached.
    Cut {
        script: &["cut sync 100 0", "bill 500"],
        report: &["armed", "ack bill 1 taken at 2", "end at 2 credit 500"],
        status: Status::Done, left: Left::Sound(2), falls: &[], armed: 1,
    },
    Cut {
        script: &["cut call 1 0"],
        report: &["armed", "end at 1 credit 0"],
        status: Status::Done, left: Left::Sound(1), falls: &[], armed: 1,
    },
    // The second waits for the first.
    Cut {
        script: &["cut call 100000 3", "cut sync 1 0", "bill 500", "bill 500"],
        report: &["armed", "armed", "ack bill 1 taken at 2", "ack bill 2 taken at 3", "end at 3 credit 1000"],
        status: Status::Done, left: Left::Sound(3), falls: &[], armed: 2,
    },
    // The power is turned off by no cut, and the next power-on is no part of the script.
    Cut {
        script: &["bill 500", "cut sync 1 0", "off"],
        report: &["ack bill 1 taken at 2", "armed", "off", "end off"],
        status: Status::Done, left: Left::Off(SOUND_2), falls: &[], armed: 1,
    },
];

/// What is armed at the end of a trial, and that the first cut alone counts.
#[test]
fn cuts_that_stay_armed(rt: HostRuntime) -> Result<(), Fail> {
    expect_each(&rt, rt.alloc(), STAY_ARMED)
}

/// Under a lock a cut is armed, and a line about the machine makes no call.
#[test]
fn cuts_under_a_lock(rt: HostRuntime) -> Result<(), Fail> {
    let mut script = lines(rt.alloc(), LOCK)?;
    push_words(&mut script, &["cut sync 1 0\nbill 500\ncut call 1 1\n"])?;
    let mut wanted = report(rt.alloc(), LOCK_REPORT)?;
    push_words(&mut wanted, &["armed\nlocked\narmed\nend locked\n"])?;
    let told = Cut {
        script: &[],
        report: &[],
        status: Status::Locked,
        left: Left::Locked(LOST),
        falls: &[],
        armed: 2,
    };
    expect_cuts(&rt, rt.alloc(), zeros(rt.alloc()), script, &wanted, &told)
}
