//! Cuts of the power in the making of an empty memory in place of a locked one.

use crate::cuts::{Cut, expect_cuts, scatters_in_block_2};
use crate::forgeries::push_masks;
use crate::masks::{EMPTIED, RICHER, UNBALANCED};
use gd_base::{ChaChaDraws, Draws};
use gd_runs::left::{Left, push_words};
use gd_runs::locks::{LOCK, LOCK_REPORT};
use gd_runs::runs::{lines, report};
use gd_top::Status;
use std::alloc::Global;
use std::process::Abort;
use std::test::Fail;

/// A seed of which block 1 of lap 1 shows three scatters, and the first two blocks of the laps 0 and 2 don't.
const SEED: u64 = 1202;

/// The lines that tell the lap behind a clearing: the first play draws block 1.
const PLAY: &str = "bill 500\nplay reels 9\nshow state\n";

/// What they print in lap 1.
const PLAYED: &str =
    "ack bill 1 taken at 2\nack player 1 taken at 3\ncredit 455\ncondition none\norder none\nhandpay none\nplay 1 block 1 reels bet 9 wager 45\nwindow SBAAS AADSC BFBFF\nstage pick win 0\nend at 3 credit 455\n";

/// A trial that locks the memory, arms cuts and clears it, and then plays: the report between these is as wanted.
fn expect_cleared(
    rt: &impl Abort,
    alloc: Global,
    cuts: &[&str],
    printed: &[&str],
    falls: &[u32],
) -> Result<(), Fail> {
    let mut script = lines(alloc, LOCK)?;
    let mut wanted = report(alloc, LOCK_REPORT)?;
    for cut in cuts {
        push_words(&mut script, &["cut ", *cut, "\n"])?;
        push_words(&mut wanted, &["armed\n"])?;
    }
    push_words(&mut script, &["clear\n", PLAY])?;
    wanted.extend_from_slice(&lines(alloc, printed)?)?;
    push_words(&mut wanted, &[PLAYED])?;
    expect_cuts(
        rt,
        alloc,
        ChaChaDraws::new(SEED),
        script,
        &wanted,
        &told(falls, 3),
    )
}

/// What is told of a trial that is done, with both copies sound at this count.
fn told<'a>(falls: &'a [u32], count: u64) -> Cut<'a> {
    Cut {
        script: &[],
        report: &[],
        status: Status::Done,
        left: Left::Sound(count),
        falls,
        armed: 0,
    }
}

/// The memory is found locked, and the making is tried again.
const AS_IT_WAS: &[&str] = &[
    "power 3: a shut, b page 15",
    "locked",
    "cleared",
    "power 4: a sound 0, b sound 0",
    "start at 1",
];

const BOTH_SHUT: &[&str] = &[
    "power 3: a shut, b shut",
    "locked",
    "cleared",
    "power 4: a sound 0, b sound 0",
    "start at 1",
];

/// The empty memory is found, and the line is done. That it was cleared isn't printed.
const ONE_MADE: &[&str] = &["power 3: a sound 0, b shut", "start at 1 repaired b"];

const BOTH_MADE: &[&str] = &["power 3: a sound 0, b sound 0", "start at 1"];

/// Cuts in a making, and the report up to the end of the clearing. Gate a is shut before; the first sync is that of gate b, and
/// each copy has one for its body and one for its gate.
#[rattlefmt::skip]
const MAKINGS: &[(&[&str], &[&str])] = &[
    (&["sync 1 0", "sync 1 2", "sync 1 3"], AS_IT_WAS),
    (&["sync 1 1"], BOTH_SHUT),
    (&["sync 2 0", "sync 2 1", "sync 2 2", "sync 2 3"], BOTH_SHUT),
    (&["sync 3 0", "sync 3 2"], BOTH_SHUT),
    (&["sync 3 1", "sync 3 3"], ONE_MADE),
    (&["sync 4 0", "sync 4 1", "sync 4 2", "sync 4 3"], ONE_MADE),
    (&["sync 5 0", "sync 5 2"], ONE_MADE),
    (&["sync 5 1", "sync 5 3"], BOTH_MADE),
];

/// A making that is cut at each of its syncs, by each kind of a cut. The memory that is made has lap 1, whatever way it was found.
#[test]
fn a_making_cut_at_each_sync(rt: HostRuntime) -> Result<(), Fail> {
    for (cuts, printed) in MAKINGS {
        for cut in *cuts {
            expect_cleared(&rt, rt.alloc(), &[*cut], printed, &[])?;
        }
    }
    Ok(())
}

/// Cuts, the report up to the end of the clearing, and the numbers of the offers of cuts that count calls.
#[rattlefmt::skip]
const SEVERAL: &[(&[&str], &[&str], &[u32])] = &[
    // Found locked, and cut again.
    (&["sync 2 0", "sync 3 1"],
        &["power 3: a shut, b shut", "locked", "power 4: a sound 0, b shut", "start at 1 repaired b"], &[]),
    // At the sync of a body the memory is found locked, and at the gate that is opened it isn't.
    (&["call 4 1"],
        &["power 3: a shut, b shut", "locked", "cleared", "power 4: a sound 0, b sound 0", "start at 1"], &[3]),
    (&["call 5 1"],
        &["power 3: a sound 0, b shut", "start at 1 repaired b"], &[3]),
    // Found locked three times; the fourth making is cut in its last sync.
    (&["sync 1 0", "sync 1 1", "sync 2 3", "sync 5 3"],
        &["power 3: a shut, b page 15", "locked", "power 4: a shut, b shut", "locked", "power 5: a shut, b shut", "locked",
            "power 6: a sound 0, b sound 0", "start at 1"], &[]),
    // The making is whole, and the cut comes in the opening behind it: in the start,
    (&["sync 6 0"],
        &["cleared", "power 3: a sound 0, b sound 0", "power 4: a sound 0, b sound 0", "start at 1"], &[]),
    (&["sync 7 1"],
        &["cleared", "power 3: a sound 0, b sound 0", "power 4: a shut, b sound 0", "start at 1 repaired a"], &[]),
    // The empty memory is found, and the opening that finds it is cut: in its repair, and at several places.
    (&["sync 4 0", "sync 2 0"],
        &["power 3: a sound 0, b shut", "power 4: a sound 0, b shut", "start at 1 repaired b"], &[]),
    (&["sync 4 0", "call 1 1", "sync 4 1"],
        &["power 3: a sound 0, b shut", "power 4: a sound 0, b shut", "power 5: a shut, b sound 0", "start at 1 repaired a"], &[4]),
];

/// Several cuts in one clearing, and cuts in the openings behind one.
#[test]
fn several_cuts_in_a_clearing(rt: HostRuntime) -> Result<(), Fail> {
    for (cuts, printed, falls) in SEVERAL {
        expect_cleared(&rt, rt.alloc(), cuts, printed, falls)?;
    }
    Ok(())
}

// ================ forged copies

/// A trial of a memory that forged copies lock, and that is cleared under a cut.
#[derive(Drop)]
struct Forged<'a> {
    /// The lines before the power is off, and those that they print.
    before: &'a [&'a str],
    printed: &'a [&'a str],
    /// The masks on copy a.
    a: &'a [(&'a str, &'a str)],
    /// The line of the power-on that is locked.
    found: &'a str,
    cut: &'a str,
    /// The report from the power-on behind the cut to the end.
    report: &'a [&'a str],
    falls: &'a [u32],
    /// The count at which both copies are sound.
    count: u64,
}

/// Locks the memory by these masks, arms the cut, clears it, and plays.
fn expect_forged<W: Draws + Drop>(
    rt: &impl Abort,
    alloc: Global,
    draws: W,
    forged: &Forged,
) -> Result<(), Fail> {
    let mut script = lines(alloc, forged.before)?;
    let mut wanted = report(alloc, forged.printed)?;
    push_words(&mut script, &["off\n"])?;
    push_words(&mut wanted, &["off\n"])?;
    push_masks(&mut script, &mut wanted, "a ", forged.a)?;
    push_words(&mut script, &["on\ncut ", forged.cut, "\nclear\n", PLAY])?;
    push_words(&mut wanted, &[forged.found, "\nlocked\narmed\n"])?;
    wanted.extend_from_slice(&lines(alloc, forged.report)?)?;
    expect_cuts(
        rt,
        alloc,
        draws,
        script,
        &wanted,
        &told(forged.falls, forged.count),
    )
}

/// The cut leaves copy a shut and copy b, which wasn't altered, as it was: the old memory comes back, in lap 0.
#[rattlefmt::skip]
const COME_BACK: &[Forged] = &[
    Forged {
        before: &[], printed: &[], a: UNBALANCED,
        found: "power 2: a sound 2, b sound 1", cut: "call 1 1",
        report: &["power 3: a shut, b sound 1", "start at 2 repaired a", "ack bill 1 taken at 3", "ack player 1 taken at 4", "credit 455",
            "condition none", "order none", "handpay none", "play 1 block 2 reels bet 9 wager 45", "window SSSFC AFACF BEDEB",
            "stage pick win 0", "end at 4 credit 455"],
        falls: &[3], count: 4,
    },
    Forged {
        before: &[], printed: &[], a: EMPTIED,
        found: "power 2: a sound 9, b sound 1", cut: "call 1 1",
        report: &["power 3: a shut, b sound 1", "start at 2 repaired a", "ack bill 1 taken at 3", "ack player 1 taken at 4", "credit 455",
            "condition none", "order none", "handpay none", "play 1 block 2 reels bet 9 wager 45", "window SSSFC AFACF BEDEB",
            "stage pick win 0", "end at 4 credit 455"],
        falls: &[3], count: 4,
    },
    Forged {
        before: &["bill 500"], printed: &["ack bill 1 taken at 2"], a: RICHER,
        found: "power 2: a sound 2, b sound 2", cut: "call 1 1",
        report: &["power 3: a shut, b sound 2", "start at 3 repaired a", "ack bill 2 taken at 4", "ack player 1 taken at 5", "credit 955",
            "condition none", "order none", "handpay none", "play 1 block 2 reels bet 9 wager 45", "window SSSFC AFACF BEDEB",
            "stage pick win 0", "end at 5 credit 955"],
        falls: &[4], count: 5,
    },
];

/// A clearing ends without one where another view is found than the empty one. Block 2 of lap 0 tells that.
#[test]
fn an_old_memory_comes_back(rt: HostRuntime) -> Result<(), Fail> {
    for forged in COME_BACK {
        expect_forged(&rt, rt.alloc(), scatters_in_block_2(rt.alloc())?, forged)?;
    }
    Ok(())
}

/// The cut leaves both copies as they were, or shuts both: the memory is locked still.
#[rattlefmt::skip]
const LOCKED_STILL: &[Forged] = &[
    Forged {
        before: &[], printed: &[], a: UNBALANCED,
        found: "power 2: a sound 2, b sound 1", cut: "call 1 0",
        report: &["power 3: a sound 2, b sound 1", "locked", "cleared", "power 4: a sound 0, b sound 0", "start at 1", "ack bill 1 taken at 2",
            "ack player 1 taken at 3", "credit 455", "condition none", "order none", "handpay none", "play 1 block 1 reels bet 9 wager 45",
            "window SBAAS AADSC BFBFF", "stage pick win 0", "end at 3 credit 455"],
        falls: &[3], count: 3,
    },
    Forged {
        before: &[], printed: &[], a: UNBALANCED,
        found: "power 2: a sound 2, b sound 1", cut: "call 2 1",
        report: &["power 3: a shut, b shut", "locked", "cleared", "power 4: a sound 0, b sound 0", "start at 1", "ack bill 1 taken at 2",
            "ack player 1 taken at 3", "credit 455", "condition none", "order none", "handpay none", "play 1 block 1 reels bet 9 wager 45",
            "window SBAAS AADSC BFBFF", "stage pick win 0", "end at 3 credit 455"],
        falls: &[3], count: 3,
    },
];

/// A forged copy that shows no view: the making is tried again, in lap 1.
#[test]
fn a_forged_lock_stays(rt: HostRuntime) -> Result<(), Fail> {
    for forged in LOCKED_STILL {
        expect_forged(&rt, rt.alloc(), ChaChaDraws::new(SEED), forged)?;
    }
    Ok(())
}

/// The payload of no entry at the sequence 9.
#[rattlefmt::skip]
const EMPTY_AT_9: Forged = Forged {
    before: &[], printed: &[], a: EMPTIED,
    found: "power 2: a sound 9, b sound 1", cut: "sync 1 0",
    report: &["power 3: a sound 9, b sound 1", "locked", "cleared", "power 4: a sound 0, b sound 0", "start at 1", "ack bill 1 taken at 2",
        "ack player 1 taken at 3", "credit 455", "condition none", "order none", "handpay none", "play 1 block 1 reels bet 9 wager 45",
        "window SBAAS AADSC BFBFF", "stage pick win 0", "end at 3 credit 455"],
    falls: &[], count: 3,
};

/// The payload of no entry at another sequence than 0 shows no view: the memory is locked, and no memory was made. The lap is
/// raised once, by the making that is whole.
#[test]
fn an_empty_payload_at_another_sequence(rt: HostRuntime) -> Result<(), Fail> {
    expect_forged(&rt, rt.alloc(), ChaChaDraws::new(SEED), &EMPTY_AT_9)
}
