//! Faults of the sink and of the disk at each place of a script that repeats an event over a loss of power, and of the disk in
//! a repair.

use gd_base::MemorySource;
use gd_disk::{DISK_LEN, LabDisk, MemoryLab};
use gd_runs::left::{Left, expect_left};
use gd_runs::runs::{Run, are_sound, lines, report, trial};
use gd_store::{CopyState, Found, Why};
use gd_top::Status;
use std::alloc::Global;
use std::process::Abort;
use std::test::Fail;

/// An event, its repeats by both lines, a number out of step, and the repeat after a loss of power.
const SCRIPT: &[&str] = &[
    "bill 500",
    "again bill",
    "as 1 bill 500",
    "as 9 bill 500",
    "off",
    "on",
    "again bill",
];

/// The lines of the whole report. Beside each stands the count at which both copies are sound while the line is
/// written, which is after its event or its start was committed; none where the power is off.
const REPORT: &[(&str, Option<u64>)] = &[
    ("power 1: a sound 0, b sound 0", Some(1)),
    ("start at 1", Some(1)),
    ("ack bill 1 taken at 2", Some(2)),
    ("again bill 1 taken at 2", Some(2)),
    ("again bill 1 taken at 2", Some(2)),
    ("step bill expected 2", Some(2)),
    ("off", None),
    ("power 2: a sound 2, b sound 2", Some(3)),
    ("start at 3", Some(3)),
    ("again bill 1 taken at 3", Some(3)),
    ("end at 3 credit 500", Some(3)),
];

/// Room for the whole report, and more.
const ROOM: usize = 1000;

/// Carries out the script over this laboratory, with room for as many bytes of output.
fn run_script(alloc: Global, room: usize, fail_at: u64) -> Result<Run<MemoryLab>, Fail> {
    let script = MemorySource::of(lines(alloc, SCRIPT)?, None);
    let lab = MemoryLab::faulty(alloc, DISK_LEN, fail_at)?;
    trial(alloc, &["trial"], script, room, lab)
}

/// A call of the disk that no run comes to.
const NO_CALL: u64 = 0;

/// A run with room for just these bytes of the report ends so, and leaves the copies sound at this count.
fn expect_front(
    rt: &impl Abort,
    alloc: Global,
    front: &[u8],
    status: Status,
    entries: Option<u64>,
) -> Result<(), Fail> {
    let run = run_script(alloc, front.len(), NO_CALL)?;
    assert_eq!(rt; run.status, status);
    assert_eq!(rt; run.output.bytes(), front);
    match entries {
        Some(count) => are_sound(alloc, run.lab, count),
        None => {
            assert_eq!(rt; run.lab.powered(), false);
            Ok(())
        }
    }
}

/// Where there is room for fewer bytes than the whole report, just these are written.
#[test]
fn a_sink_that_fails_at_each_byte(rt: HostRuntime) -> Result<(), Fail> {
    let alloc = rt.alloc();
    let mut front = Vec::new(alloc);
    for (line, entries) in REPORT {
        for byte in &lines(alloc, &[*line])? {
            expect_front(&rt, alloc, &front, Status::WriteFault, *entries)?;
            front.push(*byte)?;
        }
    }
    expect_front(&rt, alloc, &front, Status::Done, Some(3))
}

/// Calls of the disk from the first to the last of each part of the run, and how many lines of the report stand before
/// `disk fault` where one of them fails. A repeat and a number out of step make no call, and neither does turning the
/// power off or on.
const CALLS: &[(u64, u64, usize)] = &[
    // The making of zeros: two reads, a sync, and two writes with a sync each for either copy.
    (1, 11, 0),
    // The first reading of both copies, before what was found is known.
    (12, 13, 0),
    // Their second reading, and the start: five writes and three syncs for either copy, of which two pages change, that of
    // the head and that of the list.
    (14, 31, 1),
    // The bill: as many writes and syncs.
    (32, 47, 2),
    // After the power is on again, the first reading,
    (48, 49, 7),
    // and the second with the start.
    (50, 67, 8),
];

/// Behind the last of these calls there is none.
const BEHIND_LAST: u64 = 68;

/// The first lines of the report.
fn first_lines(alloc: Global, count: usize) -> Result<Vec<u8>, Fail> {
    let mut bytes = Vec::new(alloc);
    for (line, _) in REPORT.iter().take(count) {
        bytes.extend_from_slice(line.as_bytes())?;
        bytes.push(b'\n')?;
    }
    Ok(bytes)
}

/// At a fault of the disk the report stands up to the failing call. The power is off then.
#[test]
fn a_disk_that_fails_at_each_call(rt: HostRuntime) -> Result<(), Fail> {
    let alloc = rt.alloc();
    for (first, last, count) in CALLS {
        let mut wanted = first_lines(alloc, *count)?;
        wanted.extend_from_slice(b"disk fault\n")?;
        for call in *first..=*last {
            let run = run_script(alloc, ROOM, call)?;
            assert_eq!(rt; run.status, Status::DiskFault);
            assert_eq!(rt; run.output.bytes(), wanted.as_slice());
            assert_eq!(rt; run.lab.powered(), false);
        }
    }
    let run = run_script(alloc, ROOM, BEHIND_LAST)?;
    assert_eq!(rt; run.status, Status::Done);
    let whole = first_lines(alloc, REPORT.len())?;
    assert_eq!(rt; run.output.bytes(), whole.as_slice());
    Ok(())
}

/// A bill, and the opening of a memory of which copy a was altered.
const REPAIRING: &[&str] = &["bill 500", "off", "alter a 2000 1", "on"];

/// The lines of the report before the start of that opening.
const FOUND: &[&str] = &[
    "ack bill 1 taken at 2",
    "off",
    "altered a 2000",
    "power 2: a page 1, b sound 2",
];

/// Calls of the disk from the first to the last of each part of that opening, and how copy a is found behind a fault in one of
/// them. The 47 calls of the making, the first opening and the bill stand before, and two readings of both copies.
#[rattlefmt::skip]
const REPAIR: &[(u64, u64, CopyState)] = &[
    // Gate a is shut: a write and a sync.
    (52, 53, CopyState::Bad(Why::BadPage(1))),
    // The body with its sync, and the gate with its own.
    (54, 57, CopyState::Bad(Why::Shut)),
    // The first write of the start.
    (58, 58, CopyState::Sound(2)),
];

/// At a fault of the disk in a repair, or behind it, the start isn't told, and copy b stands as it was.
#[test]
fn a_disk_that_fails_in_a_repair(rt: HostRuntime) -> Result<(), Fail> {
    let alloc = rt.alloc();
    let mut wanted = report(alloc, FOUND)?;
    wanted.extend_from_slice(b"disk fault\n")?;
    for (first, last, a) in REPAIR {
        for call in *first..=*last {
            let script = MemorySource::of(lines(alloc, REPAIRING)?, None);
            let lab = MemoryLab::faulty(alloc, DISK_LEN, call)?;
            let run = trial(alloc, &["trial"], script, ROOM, lab)?;
            assert_eq!(rt; run.status, Status::DiskFault);
            assert_eq!(rt; run.output.bytes(), wanted.as_slice());
            let found = Found {
                a: *a,
                b: CopyState::Sound(2),
            };
            expect_left(alloc, run.lab, Left::Off(found))?;
        }
    }
    Ok(())
}
