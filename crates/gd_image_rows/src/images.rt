//! Commands that look at an image or make one, and setups in a file: what they print, how they end and what they leave.

use crate::commands::{
    DIFFERS, Given, IN_A, IN_B, Look, MAKING, ROOM, Step, altered, carry_out, carry_step,
    expect_copies, expect_looks, expect_steps, expect_told, source_of, zero_disk,
};
use gd_base::MemorySource;
use gd_runs::runs::zeros;
use gd_top::Status;
use std::test::Fail;

/// The text of the state of the empty history.
const EMPTY_STATE: &[&str] = &[
    "credit 0",
    "condition none",
    "order none",
    "handpay none",
    "play none",
];

/// An image of zeros is locked.
#[rattlefmt::skip]
const ZEROS: &[Look] = &[
    (&["check", "m"], Status::Locked, &["a shut", "b shut", "locked"]),
    (&["show", "state", "m"], Status::Locked, &["locked"]),
];

/// A memory that was made isn't made again, and is looked at.
#[rattlefmt::skip]
const MADE: &[Look] = &[
    (&["init", "m"], Status::AlreadyMade, &["already made"]),
    (&["check", "m"], Status::Done, &["a sound 0", "b sound 0"]),
    (&["show", "state", "m"], Status::Done, EMPTY_STATE),
    (&["show", "recall", "m"], Status::Done, &["recall 0"]),
    (&["show", "events", "m"], Status::Done, &["events 0", "bills 0", "vouchers 0"]),
    (&["show", "order", "m"], Status::Done, &["order none"]),
];

/// A setup that has a credit of one cent.
const OF_ONE_CENT: Option<&[&str]> = Some(&["denom = 1"]);

/// Under another setup no text is shown, and both digests are told. The copies are told as ever.
#[rattlefmt::skip]
const DIFFERING: &[Step] = &[
    Step {
        words: &["show", "meters", "m", "--setup", "s"], setup: OF_ONE_CENT, script: None,
        status: Status::SetupDiffers, report: &[DIFFERS], stands: true,
    },
    Step {
        words: &["check", "m", "--setup", "s"], setup: OF_ONE_CENT, script: None,
        status: Status::Done, report: &["a sound 0", "b sound 0"], stands: true,
    },
];

#[test]
fn image_commands(rt: HostRuntime) -> Result<(), Fail> {
    let alloc = rt.alloc();
    let disk = expect_looks(&rt, alloc, zero_disk(alloc, None)?, ZEROS)?;
    let disk = expect_told(&rt, alloc, disk, zeros(alloc), &MAKING)?;
    let disk = expect_looks(&rt, alloc, disk, MADE)?;
    let _disk = expect_steps(&rt, alloc, disk, DIFFERING)?;
    Ok(())
}

/// One damaged copy is told, and the memory is shown from the other.
#[rattlefmt::skip]
const ONE_DAMAGED: &[Look] = &[
    (&["check", "m"], Status::Done, &["a page 1", "b sound 0"]),
    (&["show", "state", "m"], Status::Done, EMPTY_STATE),
    (&["init", "m"], Status::AlreadyMade, &["already made"]),
];

/// Where both are damaged the memory is locked.
#[rattlefmt::skip]
const BOTH_DAMAGED: &[Look] = &[
    (&["check", "m"], Status::Locked, &["a page 1", "b page 15", "locked"]),
    (&["show", "state", "m"], Status::Locked, &["locked"]),
];

/// Over a locked memory a new one may be made.
#[test]
fn damaged_images(rt: HostRuntime) -> Result<(), Fail> {
    let alloc = rt.alloc();
    let disk = altered(&rt, alloc, &[IN_A])?;
    let _disk = expect_looks(&rt, alloc, disk, ONE_DAMAGED)?;
    let disk = altered(&rt, alloc, &[IN_A, IN_B])?;
    let disk = expect_looks(&rt, alloc, disk, BOTH_DAMAGED)?;
    let disk = expect_told(&rt, alloc, disk, zeros(alloc), &MAKING)?;
    expect_copies(&rt, alloc, disk, &["a sound 0", "b sound 0"])
}

/// Commands over a disk of zeros, and how many calls they make. Those of `init` are two reads of the copies, two of the gates, a
/// sync, and two writes with a sync each for either copy.
#[rattlefmt::skip]
const CALLS: &[(&[&str], u64)] = &[
    (&["init", "m"], 13),
    (&["check", "m"], 2),
    (&["show", "meters", "m"], 2),
];

/// A disk that fails at any call of a command is told, and at the call behind the last one it isn't.
#[test]
fn failing_disks(rt: HostRuntime) -> Result<(), Fail> {
    let alloc = rt.alloc();
    for (words, calls) in CALLS {
        for call in 1..=*calls + 1 {
            let given = Given {
                setup: source_of(alloc, None)?,
                script: source_of(alloc, None)?,
                room: ROOM,
                disk: zero_disk(alloc, Some(call))?,
            };
            let ran = carry_out(alloc, words, given, zeros(alloc))?;
            assert_eq!(&rt;
                ran.status == Status::DiskFault,
                call <= *calls,
                "{words:?} {call}"
            );
            assert_eq!(&rt;
                ran.output.bytes() == b"disk fault\n".as_slice(),
                call <= *calls,
                "{words:?} {call}"
            );
        }
    }
    Ok(())
}

/// What `check` prints of a memory that was made.
const CHECKED: &[u8] = b"a sound 0\nb sound 0\n";

/// A sink that fails takes just what it has room for.
#[test]
fn failing_sinks(rt: HostRuntime) -> Result<(), Fail> {
    let alloc = rt.alloc();
    for room in 0..CHECKED.len() {
        let given = Given {
            setup: source_of(alloc, None)?,
            script: source_of(alloc, None)?,
            room,
            disk: altered(&rt, alloc, &[])?,
        };
        let ran = carry_out(alloc, &["check", "m"], given, zeros(alloc))?;
        assert_eq!(&rt; ran.status, Status::WriteFault);
        assert_eq!(&rt; ran.output.bytes(), CHECKED.get(..room).unwrap_or_default());
    }
    let disk = zero_disk(alloc, None)?;
    let ran = carry_step(alloc, disk, zeros(alloc), 0, &MAKING)?;
    assert_eq!(&rt; ran.status, Status::WriteFault);
    expect_copies(&rt, alloc, ran.disk, &["a sound 0", "b sound 0"])
}

/// Setups that are refused, where nothing is made.
#[rattlefmt::skip]
const REFUSED: &[Step] = &[
    Step {
        words: &["init", "m", "--setup", "s"], setup: Some(&["denom = 0"]), script: None,
        status: Status::SetupRefused, report: &["setup denom"], stands: true,
    },
    // A file that can't be read.
    Step {
        words: &["init", "m", "--setup", "s"], setup: None, script: None,
        status: Status::ReadFault, report: &["read fault"], stands: true,
    },
];

/// A setup of one comment is refused where it has more than 65,536 bytes.
#[test]
fn refused_setups(rt: HostRuntime) -> Result<(), Fail> {
    let alloc = rt.alloc();
    let mut disk = expect_steps(&rt, alloc, zero_disk(alloc, None)?, REFUSED)?;
    for (len, status, printed) in [
        (65_537, Status::SetupRefused, "setup text\n"),
        (65_536, Status::Done, "made\n"),
    ] {
        let given = Given {
            setup: MemorySource::of(vec![in alloc; b'#'; len]?, None),
            script: source_of(alloc, None)?,
            room: ROOM,
            disk,
        };
        let ran = carry_out(alloc, &["init", "m", "--setup", "s"], given, zeros(alloc))?;
        assert_eq!(&rt; ran.status, status);
        assert_eq!(&rt; ran.output.bytes(), printed.as_bytes());
        disk = ran.disk;
    }
    Ok(())
}
