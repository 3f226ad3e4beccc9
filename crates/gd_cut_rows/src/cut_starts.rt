//! Cuts of the power in openings: in the start, in a repair, and over several offers.

use crate::cuts::{Cut, expect_cuts, expect_each};
use gd_runs::left::{Left, push_words};
use gd_runs::runs::{report, zeros};
use gd_top::Status;
use std::test::Fail;

/// A bill is cut before its first copy, and the start behind it is cut too.
#[test]
fn cut_in_the_start(rt: HostRuntime) -> Result<(), Fail> {
    expect_each(&rt, rt.alloc(), &[IN_THE_START])
}

#[rattlefmt::skip]
const IN_THE_START: Cut = Cut {
    script: &["cut sync 1 0", "cut sync 2 0", "bill 500"],
    report: &["armed", "armed", "power 2: a sound 1, b sound 1", "power 3: a shut, b sound 1", "start at 2 repaired a",
        "ack bill 1 taken at 3", "end at 3 credit 500"],
    status: Status::Done, left: Left::Sound(3), falls: &[], armed: 0,
};

#[rattlefmt::skip]
const STARTS: &[Cut] = &[
    // An `on` whose start is cut twice: in the start, and in the repair before the next one.
    Cut {
        script: &["off", "cut sync 2 0", "cut sync 3 0", "on"],
        report: &["off", "armed", "armed", "power 2: a sound 1, b sound 1", "power 3: a shut, b sound 1", "power 4: a shut, b sound 1",
            "start at 2 repaired a", "end at 2 credit 0"],
        status: Status::Done, left: Left::Sound(2), falls: &[], armed: 0,
    },
    // The first start stands in copy a. Three syncs repair copy b, and the second start is cut at its second.
    Cut {
        script: &["off", "cut sync 4 0", "cut sync 5 1", "on"],
        report: &["off", "armed", "armed", "power 2: a sound 1, b sound 1", "power 3: a sound 2, b sound 1", "power 4: a shut, b sound 2",
            "start at 3 repaired a", "end at 3 credit 0"],
        status: Status::Done, left: Left::Sound(3), falls: &[], armed: 0,
    },
    // A bill, and both starts behind it: the first is in both copies, the second in copy a.
    Cut {
        script: &["cut sync 1 0", "cut sync 6 1", "cut sync 9 1", "bill 500"],
        report: &["armed", "armed", "armed", "power 2: a sound 1, b sound 1", "power 3: a sound 2, b sound 2", "start at 3",
            "power 4: a sound 4, b sound 3", "start at 5 repaired b", "again bill 1 taken at 5", "end at 5 credit 500"],
        status: Status::Done, left: Left::Sound(5), falls: &[], armed: 0,
    },
    // At the first call of a bill, of a start and of a repair, whose gate is shut already.
    Cut {
        script: &["cut call 1 1", "cut call 1 1", "cut call 1 1", "bill 500"],
        report: &["armed", "armed", "armed", "power 2: a shut, b sound 1", "power 3: a shut, b sound 1", "power 4: a shut, b sound 1",
            "start at 2 repaired a", "ack bill 1 taken at 3", "end at 3 credit 500"],
        status: Status::Done, left: Left::Sound(3), falls: &[2, 3, 4], armed: 0,
    },
    // At the last sync of a bill, and in the start behind a repair.
    Cut {
        script: &["cut sync 6 0", "cut sync 6 1", "bill 500"],
        report: &["armed", "armed", "power 2: a sound 2, b shut", "power 3: a sound 3, b sound 2", "start at 4 repaired b",
            "again bill 1 taken at 4", "end at 4 credit 500"],
        status: Status::Done, left: Left::Sound(4), falls: &[], armed: 0,
    },
    // Of three cuts the second alone counts calls.
    Cut {
        script: &["cut sync 1 0", "cut call 3 0", "cut sync 1 1", "bill 500"],
        report: &["armed", "armed", "armed", "power 2: a sound 1, b sound 1", "power 3: a shut, b sound 1", "power 4: a shut, b sound 1",
            "start at 2 repaired a", "ack bill 1 taken at 3", "end at 3 credit 500"],
        status: Status::Done, left: Left::Sound(3), falls: &[3], armed: 0,
    },
    // Six syncs of the first bill are counted off; the cut comes at the first of the second.
    Cut {
        script: &["cut sync 7 0", "bill 500", "bill 100"],
        report: &["armed", "ack bill 1 taken at 2", "power 2: a sound 2, b sound 2", "start at 3", "ack bill 2 taken at 4",
            "end at 4 credit 600"],
        status: Status::Done, left: Left::Sound(4), falls: &[], armed: 0,
    },
    // The sixteen calls of the first bill are counted off.
    Cut {
        script: &["cut call 17 0", "bill 500", "bill 100"],
        report: &["armed", "ack bill 1 taken at 2", "power 2: a sound 2, b sound 2", "start at 3", "ack bill 2 taken at 4",
            "end at 4 credit 600"],
        status: Status::Done, left: Left::Sound(4), falls: &[3], armed: 0,
    },
    // The power is turned off between; the cut comes in the start.
    Cut {
        script: &["cut sync 8 0", "bill 500", "off", "on"],
        report: &["armed", "ack bill 1 taken at 2", "off", "power 2: a sound 2, b sound 2", "power 3: a shut, b sound 2",
            "start at 3 repaired a", "end at 3 credit 500"],
        status: Status::Done, left: Left::Sound(3), falls: &[], armed: 0,
    },
    // The second cut is armed with the first half counted off, and comes in the repair behind it.
    Cut {
        script: &["cut sync 9 0", "bill 500", "cut sync 1 0", "off", "on"],
        report: &["armed", "ack bill 1 taken at 2", "armed", "off", "power 2: a sound 2, b sound 2", "power 3: a shut, b sound 2",
            "power 4: a shut, b sound 2", "start at 3 repaired a", "end at 3 credit 500"],
        status: Status::Done, left: Left::Sound(3), falls: &[], armed: 0,
    },
    // A refusal is an entry too.
    Cut {
        script: &["cut sync 1 0", "bill 300"],
        report: &["armed", "power 2: a sound 1, b sound 1", "start at 2", "ack bill 1 refused 3 value-not-enabled at 3", "end at 3 credit 0"],
        status: Status::Done, left: Left::Sound(3), falls: &[], armed: 0,
    },
    // What is no new entry makes no call.
    Cut {
        script: &["cut sync 1 0", "again reader", "as 9 bill 500", "show state", "bill 500", "again bill"],
        report: &["armed", "none reader", "step bill expected 1", "credit 0", "condition none", "order none", "handpay none", "play none",
            "power 2: a sound 1, b sound 1", "start at 2", "ack bill 1 taken at 3", "again bill 1 taken at 3", "end at 3 credit 500"],
        status: Status::Done, left: Left::Sound(3), falls: &[], armed: 0,
    },
    // The openings and the bill that is offered again are counted, the repeat isn't.
    Cut {
        script: &["cut call 7 1", "bill 500", "cut call 2 0", "play reels 1", "off", "on"],
        report: &["armed", "power 2: a sound 2, b sound 1", "start at 3 repaired b", "again bill 1 taken at 3", "armed",
            "power 3: a sound 3, b sound 3", "start at 4", "ack player 1 taken at 5", "off", "power 4: a sound 5, b sound 5", "start at 6",
            "end at 6 credit 495"],
        status: Status::Done, left: Left::Sound(6), falls: &[2, 4], armed: 0,
    },
];

/// Cuts in starts and in what lies between two of them.
#[test]
fn cuts_in_starts(rt: HostRuntime) -> Result<(), Fail> {
    expect_each(&rt, rt.alloc(), STARTS)
}

// ================ repairs

/// Syncs of the repair of an altered copy a, kinds of a cut, and what it leaves of the copy.
#[rattlefmt::skip]
const REPAIRED: &[(&str, &[&str], &str)] = &[
    ("1", &["0", "2", "3"], "page 1"),
    ("1", &["1"], "shut"),
    ("2", &["0", "1", "2", "3"], "shut"),
    ("3", &["0", "2"], "shut"),
    ("3", &["1", "3"], "sound 1"),
];

/// A cut at each sync of a repair, of each kind. The start follows the whole of a further repair.
#[test]
fn cut_at_each_sync_of_a_repair(rt: HostRuntime) -> Result<(), Fail> {
    let alloc = rt.alloc();
    let told = Cut {
        script: &[],
        report: &[],
        status: Status::Done,
        left: Left::Sound(2),
        falls: &[],
        armed: 0,
    };
    for (sync, kinds, found) in REPAIRED {
        for kind in *kinds {
            let mut script = Vec::new(alloc);
            push_words(
                &mut script,
                &[
                    "off\nalter a 2000 1\ncut sync ",
                    *sync,
                    " ",
                    *kind,
                    "\non\n",
                ],
            )?;
            let mut wanted = report(
                alloc,
                &[
                    "off",
                    "altered a 2000",
                    "armed",
                    "power 2: a page 1, b sound 1",
                ],
            )?;
            push_words(
                &mut wanted,
                &["power 3: a ", *found, ", b sound 1\nstart at 2"],
            )?;
            if *found != "sound 1" {
                push_words(&mut wanted, &[" repaired a"])?;
            }
            push_words(&mut wanted, &["\nend at 2 credit 0\n"])?;
            expect_cuts(&rt, alloc, zeros(alloc), script, &wanted, &told)?;
        }
    }
    Ok(())
}

#[rattlefmt::skip]
const REPAIRS: &[Cut] = &[
    // At the calls of the repair of copy b: a gate that is shut, the sync of the body, and the gate that is opened.
    Cut {
        script: &["off", "alter b 2000 1", "cut call 1 1", "on"],
        report: &["off", "altered b 2000", "armed", "power 2: a sound 1, b page 1", "power 3: a sound 1, b shut", "start at 2 repaired b",
            "end at 2 credit 0"],
        status: Status::Done, left: Left::Sound(2), falls: &[2], armed: 0,
    },
    Cut {
        script: &["off", "alter b 2000 1", "cut call 4 3", "on"],
        report: &["off", "altered b 2000", "armed", "power 2: a sound 1, b page 1", "power 3: a sound 1, b shut", "start at 2 repaired b",
            "end at 2 credit 0"],
        status: Status::Done, left: Left::Sound(2), falls: &[2], armed: 0,
    },
    Cut {
        script: &["off", "alter b 2000 1", "cut call 5 3", "cut call 9 1", "on"],
        report: &["off", "altered b 2000", "armed", "armed", "power 2: a sound 1, b page 1", "power 3: a sound 1, b sound 1",
            "power 4: a sound 2, b shut", "start at 3 repaired b", "end at 3 credit 0"],
        status: Status::Done, left: Left::Sound(3), falls: &[2, 3], armed: 0,
    },
    // A gate that is shut isn't written again: the first call is its sync, the second writes the body.
    Cut {
        script: &["off", "alter a 0 255", "cut call 1 3", "cut call 2 1", "on"],
        report: &["off", "altered a 0", "armed", "armed", "power 2: a shut, b sound 1", "power 3: a shut, b sound 1",
            "power 4: a shut, b sound 1", "start at 2 repaired a", "end at 2 credit 0"],
        status: Status::Done, left: Left::Sound(2), falls: &[2, 3], armed: 0,
    },
    // A bill, and three repairs in a row.
    Cut {
        script: &["bill 500", "cut sync 2 0", "cut sync 1 0", "cut sync 3 2", "cut sync 4 0", "bill 100"],
        report: &["ack bill 1 taken at 2", "armed", "armed", "armed", "armed", "power 2: a shut, b sound 2", "power 3: a shut, b sound 2",
            "power 4: a shut, b sound 2", "power 5: a sound 2, b sound 2", "start at 3", "ack bill 2 taken at 4", "end at 4 credit 600"],
        status: Status::Done, left: Left::Sound(4), falls: &[], armed: 0,
    },
];

/// Cuts in several repairs.
#[test]
fn cuts_in_repairs(rt: HostRuntime) -> Result<(), Fail> {
    expect_each(&rt, rt.alloc(), REPAIRS)
}
