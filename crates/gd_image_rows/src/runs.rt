//! Runs of a script over an image: what they print, how they end, and what the next command finds.

use crate::commands::{
    DIFFERS, Given, IN_A, IN_B, Look, ROOM, Step, altered, bytes_of, carry_out, carry_step,
    expect_copies, expect_looks, expect_over, expect_step, expect_steps, expect_told, source_of,
    zero_disk,
};
use gd_base::{ChaChaDraws, MemorySource};
use gd_disk::MemoryDisk;
use gd_runs::draws::three_scatters;
use gd_runs::runs::{lines, zeros};
use gd_top::Status;
use std::alloc::Global;
use std::process::Abort;
use std::test::Fail;

const RUN: &[&str] = &["run", "m"];

const CHECK: &[&str] = &["check", "m"];

// ================ one run after another

/// Each run goes on where the one before ended, and records one start.
#[rattlefmt::skip]
const GO_ON: &[Step] = &[
    // A bill, and the state behind it.
    Step {
        words: RUN, setup: None, script: Some(&["bill 500", "# a comment", "show state"]), status: Status::Done,
        report: &[
            "power 1: a sound 0, b sound 0", "start at 1", "ack bill 1 taken at 2",
            "credit 500", "condition none", "order none", "handpay none", "play none", "end at 2 credit 500",
        ],
        stands: false,
    },
    Step {
        words: CHECK, setup: None, script: None, status: Status::Done, report: &["a sound 2", "b sound 2"], stands: true,
    },
    // The repeat of that bill, and another.
    Step {
        words: RUN, setup: None, script: Some(&["again bill", "bill 100"]), status: Status::Done,
        report: &[
            "power 1: a sound 2, b sound 2", "start at 3", "again bill 1 taken at 3", "ack bill 2 taken at 4",
            "end at 4 credit 600",
        ],
        stands: false,
    },
    // No line.
    Step {
        words: RUN, setup: None, script: Some(&[]), status: Status::Done,
        report: &["power 1: a sound 4, b sound 4", "start at 5", "end at 5 credit 600"], stands: false,
    },
    Step {
        words: &["show", "events", "m"], setup: None, script: None, status: Status::Done,
        report: &["events 3", "5 start", "3 start", "1 start", "bills 2", "4 100", "2 500", "vouchers 0"], stands: true,
    },
    Step {
        words: &["init", "m"], setup: None, script: None, status: Status::AlreadyMade, report: &["already made"], stands: true,
    },
];

#[test]
fn runs_go_on(rt: HostRuntime) -> Result<(), Fail> {
    expect_over(&rt, rt.alloc(), &[], GO_ON)
}

/// A play that waits for its pick.
#[rattlefmt::skip]
const PLAY_BEGUN: Step = Step {
    words: RUN, setup: None, script: Some(&["bill 500", "play reels 9"]), status: Status::Done,
    report: &[
        "power 1: a sound 0, b sound 0", "start at 1", "ack bill 1 taken at 2", "ack player 1 taken at 3",
        "end at 3 credit 455",
    ],
    stands: false,
};

/// The state of that play.
#[rattlefmt::skip]
const PLAY_OPEN: &[Look] = &[
    (&["show", "state", "m"], Status::Done, &[
        "credit 455", "condition none", "order none", "handpay none", "play 1 block 1 reels bet 9 wager 45",
        "window SSSFC AFACF BEDEB", "stage pick win 0",
    ]),
];

/// Its end in the next run, from which no block is drawn. The prize is that of the words that were recorded.
#[rattlefmt::skip]
const PLAY_ENDED: Step = Step {
    words: RUN, setup: None, script: Some(&["pick 2", "take", "show recall"]), status: Status::Done,
    report: &[
        "power 1: a sound 3, b sound 3", "start at 4", "ack player 2 taken at 5", "ack player 3 taken at 6",
        "recall 1", "play 1 block 1 reels bet 9 wager 45", "window SSSFC AFACF BEDEB", "pick 2 prize 90",
        "win 450 before 500 after 905", "end at 6 credit 905",
    ],
    stands: false,
};

/// A play stands in the image as it stood, whatever blocks the next run has.
#[test]
fn a_play_goes_on_in_the_next_run(rt: HostRuntime) -> Result<(), Fail> {
    let alloc = rt.alloc();
    let disk = altered(&rt, alloc, &[])?;
    let disk = expect_step(&rt, alloc, disk, three_scatters(alloc)?, &PLAY_BEGUN)?;
    let disk = expect_looks(&rt, alloc, disk, PLAY_OPEN)?;
    let _disk = expect_step(&rt, alloc, disk, ChaChaDraws::new(2), &PLAY_ENDED)?;
    Ok(())
}

// ================ damaged images

/// Copy a is written anew from copy b, and the start says so.
#[rattlefmt::skip]
const REPAIRED: &[Step] = &[
    Step {
        words: RUN, setup: None, script: Some(&["bill 500"]), status: Status::Done,
        report: &["power 1: a page 1, b sound 0", "start at 1 repaired a", "ack bill 1 taken at 2", "end at 2 credit 500"],
        stands: false,
    },
    Step {
        words: CHECK, setup: None, script: None, status: Status::Done, report: &["a sound 2", "b sound 2"], stands: true,
    },
];

#[test]
fn one_copy_damaged(rt: HostRuntime) -> Result<(), Fail> {
    expect_over(&rt, rt.alloc(), &[IN_A], REPAIRED)
}

/// Both copies of the memory are damaged.
const BOTH: &[(usize, u8)] = &[IN_A, IN_B];

/// Runs over that memory after which the image stands as it was found.
#[rattlefmt::skip]
const LOCKED: &[Step] = &[
    Step {
        words: RUN, setup: None, script: Some(&[]), status: Status::Locked,
        report: &["power 1: a page 1, b page 15", "locked", "end locked"], stands: true,
    },
    // Each line about the machine is answered.
    Step {
        words: RUN, setup: None, script: Some(&["bill 500", "# a comment", "again bill", "as 7 coin 25", "show state", "order"]),
        status: Status::Locked,
        report: &[
            "power 1: a page 1, b page 15", "locked", "locked", "locked", "locked", "locked", "locked", "end locked",
        ],
        stands: true,
    },
    // A line that only a trial has.
    Step {
        words: RUN, setup: None, script: Some(&["off"]), status: Status::ScriptFault,
        report: &["power 1: a page 1, b page 15", "locked", "line 1"], stands: true,
    },
    Step {
        words: RUN, setup: None, script: Some(&["bill 500", "on"]), status: Status::ScriptFault,
        report: &["power 1: a page 1, b page 15", "locked", "locked", "line 2"], stands: true,
    },
    Step {
        words: RUN, setup: None, script: Some(&["cut sync 1 1"]), status: Status::ScriptFault,
        report: &["power 1: a page 1, b page 15", "locked", "line 1"], stands: true,
    },
    Step {
        words: RUN, setup: None, script: Some(&["alter a 2000 1"]), status: Status::ScriptFault,
        report: &["power 1: a page 1, b page 15", "locked", "line 1"], stands: true,
    },
    // A line outside the grammar.
    Step {
        words: RUN, setup: None, script: Some(&["Clear"]), status: Status::ScriptFault,
        report: &["power 1: a page 1, b page 15", "locked", "line 1"], stands: true,
    },
];

#[test]
fn both_copies_damaged(rt: HostRuntime) -> Result<(), Fail> {
    expect_over(&rt, rt.alloc(), BOTH, LOCKED)
}

/// A lock that is cleared. The line before `clear` is answered under the lock, and that behind it is an event of the new history.
#[rattlefmt::skip]
const CLEARED: &[Step] = &[
    Step {
        words: RUN, setup: None, script: Some(&["bill 500", "clear", "bill 500"]), status: Status::Done,
        report: &[
            "power 1: a page 1, b page 15", "locked", "locked", "cleared", "power 2: a sound 0, b sound 0", "start at 1",
            "ack bill 1 taken at 2", "end at 2 credit 500",
        ],
        stands: false,
    },
    Step {
        words: CHECK, setup: None, script: None, status: Status::Done, report: &["a sound 2", "b sound 2"], stands: true,
    },
];

/// A second `clear` has no lock to end.
#[rattlefmt::skip]
const CLEARED_TWICE: &[Step] = &[
    Step {
        words: RUN, setup: None, script: Some(&["clear", "clear"]), status: Status::ScriptFault,
        report: &[
            "power 1: a page 1, b page 15", "locked", "cleared", "power 2: a sound 0, b sound 0", "start at 1", "line 2",
        ],
        stands: false,
    },
    Step {
        words: CHECK, setup: None, script: None, status: Status::Done, report: &["a sound 1", "b sound 1"], stands: true,
    },
];

#[test]
fn a_locked_image_is_cleared(rt: HostRuntime) -> Result<(), Fail> {
    for steps in [CLEARED, CLEARED_TWICE] {
        expect_over(&rt, rt.alloc(), BOTH, steps)?;
    }
    Ok(())
}

/// Behind a clearing the plays take the blocks of lap 1. Of the seed 1, block 6 of it wins 10 credits on nine lines.
#[rattlefmt::skip]
const OTHER_BLOCKS: Step = Step {
    words: RUN, setup: None,
    script: Some(&[
        "clear", "bill 500", "play reels 1", "play reels 1", "play reels 1", "play reels 1", "play reels 1",
        "play reels 9", "show state",
    ]),
    status: Status::Done,
    report: &[
        "power 1: a page 1, b page 15", "locked", "cleared", "power 2: a sound 0, b sound 0", "start at 1",
        "ack bill 1 taken at 2", "ack player 1 taken at 3", "ack player 2 taken at 4", "ack player 3 taken at 5",
        "ack player 4 taken at 6", "ack player 5 taken at 7", "ack player 6 taken at 8", "credit 430", "condition none",
        "order none", "handpay none", "play 6 block 6 reels bet 9 wager 45", "window DDFDD ECDFC FFECF",
        "stage gamble win 50", "end at 8 credit 430",
    ],
    stands: false,
};

#[test]
fn other_blocks_behind_a_clearing(rt: HostRuntime) -> Result<(), Fail> {
    let disk = altered(&rt, rt.alloc(), BOTH)?;
    let _disk = expect_step(&rt, rt.alloc(), disk, ChaChaDraws::new(1), &OTHER_BLOCKS)?;
    Ok(())
}

/// A file of zeros holds no memory. It is locked, and may be cleared.
#[rattlefmt::skip]
const NEVER_MADE: &[Step] = &[
    Step {
        words: RUN, setup: None, script: Some(&["clear"]), status: Status::Done,
        report: &[
            "power 1: a shut, b shut", "locked", "cleared", "power 2: a sound 0, b sound 0", "start at 1",
            "end at 1 credit 0",
        ],
        stands: false,
    },
];

#[test]
fn an_image_that_was_never_made(rt: HostRuntime) -> Result<(), Fail> {
    let disk = zero_disk(rt.alloc(), None)?;
    let _disk = expect_steps(&rt, rt.alloc(), disk, NEVER_MADE)?;
    Ok(())
}

// ================ what ends a run early

/// Lines that only a trial has, and one that needs a lock, over an open memory.
const NO_PLACE: &[&str] = &[
    "off",
    "on",
    "cut call 1 0",
    "cut sync 1 3",
    "alter b 0 255",
    "clear",
];

/// Each of them ends the run. The start and the bill before it stand.
#[test]
fn lines_without_a_place(rt: HostRuntime) -> Result<(), Fail> {
    let alloc = rt.alloc();
    for line in NO_PLACE {
        let step = Step {
            words: RUN,
            setup: None,
            script: Some(&["bill 500", *line, "bill 100"]),
            status: Status::ScriptFault,
            report: &[
                "power 1: a sound 0, b sound 0",
                "start at 1",
                "ack bill 1 taken at 2",
                "line 2",
            ],
            stands: false,
        };
        let disk = altered(&rt, alloc, &[])?;
        let disk = expect_step(&rt, alloc, disk, zeros(alloc), &step)?;
        expect_copies(&rt, alloc, disk, &["a sound 2", "b sound 2"])?;
    }
    Ok(())
}

/// A memory of another setup ends the run before a line is read, and stands as it was found.
#[rattlefmt::skip]
const OTHER_SETUP: &[Step] = &[
    Step {
        words: &["run", "m", "--setup", "s"], setup: Some(&["denom = 1"]), script: None, status: Status::SetupDiffers,
        report: &["power 1: a sound 0, b sound 0", DIFFERS], stands: true,
    },
];

#[test]
fn a_run_over_another_setup(rt: HostRuntime) -> Result<(), Fail> {
    expect_over(&rt, rt.alloc(), &[], OTHER_SETUP)
}

/// At which take the input of one bill fails, what is printed, and what the copies are then.
#[rattlefmt::skip]
const INPUTS: &[(u64, &[&str], &[&str])] = &[
    (1, &["power 1: a sound 0, b sound 0", "start at 1", "read fault"], &["a sound 1", "b sound 1"]),
    (
        2, &["power 1: a sound 0, b sound 0", "start at 1", "ack bill 1 taken at 2", "read fault"],
        &["a sound 2", "b sound 2"],
    ),
];

/// Where the input fails the lines that it gave before are carried out.
#[test]
fn an_input_that_fails(rt: HostRuntime) -> Result<(), Fail> {
    let alloc = rt.alloc();
    for (take, printed, copies) in INPUTS {
        let given = Given {
            setup: source_of(alloc, None)?,
            script: MemorySource::of(lines(alloc, &["bill 500"])?, Some(*take)),
            room: ROOM,
            disk: altered(&rt, alloc, &[])?,
        };
        let ran = carry_out(alloc, RUN, given, zeros(alloc))?;
        assert_eq!(&rt; ran.status, Status::ReadFault);
        assert_eq!(&rt; ran.output.bytes(), lines(alloc, printed)?.as_slice());
        expect_copies(&rt, alloc, ran.disk, copies)?;
    }
    Ok(())
}

/// A run of one bill.
#[rattlefmt::skip]
const ONE_BILL: Step = Step {
    words: RUN, setup: None, script: Some(&["bill 500"]), status: Status::Done,
    report: &["power 1: a sound 0, b sound 0", "start at 1", "ack bill 1 taken at 2", "end at 2 credit 500"], stands: false,
};

/// What the copies are while each line of its report is written.
#[rattlefmt::skip]
const PRINTED: &[(&str, &[&str])] = &[
    ("power 1: a sound 0, b sound 0", &["a sound 1", "b sound 1"]),
    ("start at 1", &["a sound 1", "b sound 1"]),
    ("ack bill 1 taken at 2", &["a sound 2", "b sound 2"]),
    ("end at 2 credit 500", &["a sound 2", "b sound 2"]),
];

/// A sink that takes just this front of the report ends the run, and what was told is in both copies.
fn expect_front(rt: &impl Abort, alloc: Global, front: &[u8], copies: &[&str]) -> Result<(), Fail> {
    let disk = altered(rt, alloc, &[])?;
    let ran = carry_step(alloc, disk, zeros(alloc), front.len(), &ONE_BILL)?;
    assert_eq!(rt; ran.status, Status::WriteFault);
    assert_eq!(rt; ran.output.bytes(), front);
    expect_copies(rt, alloc, ran.disk, copies)
}

/// The sink takes nothing of a line, and all of it but its LF.
#[test]
fn a_sink_that_fails(rt: HostRuntime) -> Result<(), Fail> {
    let alloc = rt.alloc();
    let mut front = Vec::new(alloc);
    for (line, copies) in PRINTED {
        expect_front(&rt, alloc, &front, copies)?;
        front.extend_from_slice(line.as_bytes())?;
        expect_front(&rt, alloc, &front, copies)?;
        front.push(b'\n')?;
    }
    let disk = altered(&rt, alloc, &[])?;
    let ran = carry_step(alloc, disk, zeros(alloc), front.len(), &ONE_BILL)?;
    assert_eq!(&rt; ran.status, Status::Done);
    Ok(())
}

/// A run that clears a memory, and takes a bill.
#[rattlefmt::skip]
const CLEARING: Step = Step {
    words: RUN, setup: None, script: Some(&["clear", "bill 500"]), status: Status::Done,
    report: &[
        "power 1: a page 1, b page 15", "locked", "cleared", "power 2: a sound 0, b sound 0", "start at 1",
        "ack bill 1 taken at 2", "end at 2 credit 500",
    ],
    stands: false,
};

/// Masks, a run over the memory with them, and its parts: the first and the last call of the disk of each, and how many lines of
/// the report stand before `disk fault` where a call of it fails. Then the call behind the last one.
#[rattlefmt::skip]
const PARTS: &[(&[(usize, u8)], Step, &[(u64, u64, usize)], u64)] = &[
    (
        &[], ONE_BILL,
        &[
            // The first reading of both copies, before what was found is known.
            (1, 2, 0),
            // Their second reading, and the start: five writes and three syncs for either copy, of which two pages change, that of
            // the head and that of the list.
            (3, 20, 1),
            // The bill: as many writes and syncs.
            (21, 36, 2),
        ],
        37,
    ),
    (
        BOTH, CLEARING,
        &[
            // The reading of both copies.
            (1, 2, 0),
            // The making: the reading of both gates, both shut with a sync, and two writes with a sync each for either copy.
            (3, 15, 2),
            // The two readings of both copies, the start, and the bill.
            (16, 17, 3),
            (18, 35, 4),
            (36, 51, 5),
        ],
        52,
    ),
];

/// A memory that was made, with these masks put on bytes of it, on a disk whose call `fail_at` fails.
fn failing(
    rt: &impl Abort,
    alloc: Global,
    masks: &[(usize, u8)],
    fail_at: u64,
) -> Result<MemoryDisk, Fail> {
    let mut disk = altered(rt, alloc, masks)?;
    let bytes = bytes_of(alloc, &mut disk)?;
    Ok(MemoryDisk::of(bytes, Some(fail_at)))
}

/// A disk that fails at any call of a run is told behind what was done before, and at the call behind the last one it isn't.
#[test]
fn a_disk_that_fails(rt: HostRuntime) -> Result<(), Fail> {
    let alloc = rt.alloc();
    for (masks, step, parts, behind) in PARTS {
        for (first, last, count) in *parts {
            for call in *first..=*last {
                let disk = failing(&rt, alloc, masks, call)?;
                expect_fault(&rt, alloc, disk, step, *count)?;
            }
        }
        let disk = failing(&rt, alloc, masks, *behind)?;
        let _disk = expect_told(&rt, alloc, disk, zeros(alloc), step)?;
    }
    Ok(())
}

/// The report of a step over a failing disk is so many of its lines, and then the fault.
fn expect_fault(
    rt: &impl Abort,
    alloc: Global,
    disk: MemoryDisk,
    step: &Step,
    count: usize,
) -> Result<(), Fail> {
    let ran = carry_step(alloc, disk, zeros(alloc), ROOM, step)?;
    let mut report = lines(alloc, step.report.get(..count).unwrap_or_default())?;
    report.extend_from_slice(b"disk fault\n")?;
    assert_eq!(rt; ran.status, Status::DiskFault);
    assert_eq!(rt; ran.output.bytes(), report.as_slice());
    Ok(())
}
