//! Which input is refused, and where, through the whole program.

use gd_base::MemorySource;
use gd_disk::{DISK_LEN, MemoryLab};
use gd_runs::inputs::{EmptyLines, Pieces};
use gd_runs::runs::{are_sound, report, trial};
use gd_top::Status;
use std::alloc::Global;
use std::process::Abort;
use std::test::Fail;

/// The bytes of a script, how they come, and what a trial of them gives.
#[derive(Drop)]
struct Input<'a> {
    bytes: &'a [u8],
    /// The most bytes of a piece.
    most: usize,
    /// The call that fails, from 1; none where it is 0.
    fail_at: u64,
    status: Status,
    /// The lines of the report behind those of the opening.
    report: &'a [&'a str],
}

/// Runs a trial of an input over a new memory.
fn expect(rt: &impl Abort, alloc: Global, input: &Input) -> Result<(), Fail> {
    let mut bytes = Vec::new(alloc);
    bytes.extend_from_slice(input.bytes)?;
    let pieces = Pieces {
        bytes: MemorySource::of(bytes, Some(input.fail_at)),
        most: input.most,
    };
    let lab = MemoryLab::new(alloc, DISK_LEN)?;
    let run = trial(alloc, &["trial"], pieces, 1000, lab)?;
    assert_eq!(rt; run.status, input.status);
    let wanted = report(alloc, input.report)?;
    assert_eq!(rt; run.output.bytes(), wanted.as_slice());
    Ok(())
}

/// A comment of 121 bytes.
const LONG: &[u8] =
    b"#123456789012345678901234567890123456789012345678901234567890123456789012345678901234567890123456789012345678901234567890";

/// Whole scripts, with the status and the report of each.
#[rattlefmt::skip]
const SCRIPTS: &[(&[u8], Status, &[&str])] = &[
    (LONG, Status::ScriptFault, &["line 1"]),
    (b"bill 500", Status::ScriptFault, &["line 1"]),
    (b"bill 500\r\n", Status::ScriptFault, &["line 1"]),
    (b"bill 500\n\n# a comment\nbill 0500\nbill 500\n", Status::ScriptFault, &["ack bill 1 taken at 2", "line 4"]),
    (b"bill 500\ncoin 25\n", Status::Done, &["ack bill 1 taken at 2", "ack coin 1 taken at 3", "end at 3 credit 525"]),
    (b"coin 25\ncoin 25 1\n", Status::ScriptFault, &["ack coin 1 taken at 2", "line 2"]),
    (b"bill 500\n# a comment\n\n", Status::Done, &["ack bill 1 taken at 2", "end at 2 credit 500"]),
];

#[test]
fn script_faults(rt: HostRuntime) -> Result<(), Fail> {
    let alloc = rt.alloc();
    assert_eq!(rt; LONG.len(), 121);
    for (bytes, status, report) in SCRIPTS {
        for most in [1, 2, 7, 16] {
            let input = Input {
                bytes,
                most,
                fail_at: 0,
                status: *status,
                report,
            };
            expect(&rt, alloc, &input)?;
        }
    }
    Ok(())
}

/// Nine bytes a line.
const TWO_BILLS: &[u8] = b"bill 500\nbill 100\n";

/// A faulty line of eight bytes, and another.
const BAD_BILL: &[u8] = b"bill 05\nbill 100\n";

/// Sources that fail at a call: the bytes, the most of a piece and the call, with the status and the report of each.
#[rattlefmt::skip]
const FAILING: &[(&[u8], usize, u64, Status, &[&str])] = &[
    // The first line is whole after call 2 of seven bytes, and the end is told at call 4.
    (TWO_BILLS, 7, 1, Status::ReadFault, &["read fault"]),
    (TWO_BILLS, 7, 2, Status::ReadFault, &["read fault"]),
    (TWO_BILLS, 7, 3, Status::ReadFault, &["ack bill 1 taken at 2", "read fault"]),
    (TWO_BILLS, 7, 4, Status::ReadFault, &["ack bill 1 taken at 2", "ack bill 2 taken at 3", "read fault"]),
    (TWO_BILLS, 7, 5, Status::Done, &["ack bill 1 taken at 2", "ack bill 2 taken at 3", "end at 3 credit 600"]),
    // A faulty line that was taken with its LF is told, and one without it isn't.
    (BAD_BILL, 8, 2, Status::ScriptFault, &["line 1"]),
    (BAD_BILL, 7, 2, Status::ReadFault, &["read fault"]),
    // So is the 121st byte of a line, and 120 are not.
    (LONG, 11, 12, Status::ScriptFault, &["line 1"]),
    (LONG, 12, 11, Status::ReadFault, &["read fault"]),
];

#[test]
fn a_source_that_fails_at_each_call(rt: HostRuntime) -> Result<(), Fail> {
    let alloc = rt.alloc();
    for (bytes, most, fail_at, status, report) in FAILING {
        let input = Input {
            bytes,
            most: *most,
            fail_at: *fail_at,
            status: *status,
            report,
        };
        expect(&rt, alloc, &input)?;
    }
    Ok(())
}

/// Runs so many empty lines.
fn lines_end(
    rt: &impl Abort,
    alloc: Global,
    lines: usize,
    status: Status,
    wanted: &str,
) -> Result<(), Fail> {
    let lab = MemoryLab::new(alloc, DISK_LEN)?;
    let run = trial(alloc, &["trial"], EmptyLines { lines }, 1000, lab)?;
    assert_eq!(rt; run.status, status);
    assert_eq!(rt; run.output.bytes(), report(alloc, &[wanted])?.as_slice());
    are_sound(alloc, run.lab, 1)
}

#[test]
fn the_limit_of_lines(rt: HostRuntime) -> Result<(), Fail> {
    let alloc = rt.alloc();
    lines_end(&rt, alloc, 1_000_000, Status::Done, "end at 1 credit 0")?;
    lines_end(&rt, alloc, 1_000_001, Status::ScriptFault, "line 1000001")
}
