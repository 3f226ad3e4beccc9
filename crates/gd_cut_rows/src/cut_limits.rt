//! The limit of power-ons, cuts among them, and a long script.

use crate::cuts::{Cut, expect_cuts};
use gd_base::{MemorySource, Text, push_number};
use gd_disk::{DISK_LEN, LabDisk, MemoryLab};
use gd_runs::left::{Left, ROOM, SOUND_1, expect_left, push_words};
use gd_runs::locks::{LOCK, LOST};
use gd_runs::runs::{lines, report, trial, zeros};
use gd_store::{CopyState, Found};
use gd_top::Status;
use std::alloc::Global;
use std::process::Abort;
use std::test::Fail;

/// A cut that isn't reached.
const FAR: &str = "cut sync 100000 0\n";

/// A trial: its status, the end of its report, how many cuts are armed at the end, and what it leaves.
fn expect_end(
    rt: &impl Abort,
    alloc: Global,
    script: Vec<u8>,
    status: Status,
    end: &[u8],
    armed: u32,
    left: Left,
) -> Result<(), Fail> {
    let source = MemorySource::of(script, None);
    let lab = MemoryLab::new(alloc, DISK_LEN)?;
    let run = trial(alloc, &["trial"], source, ROOM, lab)?;
    assert!(rt; run.output.bytes().ends_with(end));
    assert_eq!(rt; run.status, status);
    assert_eq!(rt; run.lab.cuts_armed(), armed);
    assert!(rt; run.falls.as_slice().is_empty());
    expect_left(alloc, run.lab, left)
}

/// These lines, and behind them so many cuts that aren't reached.
fn with_far_cuts(alloc: Global, first: &[&str], count: usize) -> Result<Vec<u8>, Fail> {
    let mut script = lines(alloc, first)?;
    for _ in 0..count {
        push_words(&mut script, &[FAR])?;
    }
    Ok(script)
}

/// A power-on and 255 cuts are 256: a further cut is a script fault.
#[test]
fn as_many_cuts_as_are_allowed(rt: HostRuntime) -> Result<(), Fail> {
    let alloc = rt.alloc();
    let most = with_far_cuts(alloc, &[], 255)?;
    let end = b"armed\narmed\nend at 1 credit 0\n";
    expect_end(&rt, alloc, most, Status::Done, end, 255, Left::Sound(1))?;
    let more = with_far_cuts(alloc, &[], 256)?;
    let end = b"armed\narmed\nline 256\n";
    expect_end(
        &rt,
        alloc,
        more,
        Status::ScriptFault,
        end,
        255,
        Left::Sound(1),
    )
}

/// Under 200 cuts the power is turned on 55 times more.
#[test]
fn power_ons_beside_armed_cuts(rt: HostRuntime) -> Result<(), Fail> {
    let alloc = rt.alloc();
    let mut script = with_far_cuts(alloc, &[], 200)?;
    for _ in 0..56 {
        push_words(&mut script, &["off\non\n"])?;
    }
    let end = b"power 56: a sound 55, b sound 55\nstart at 56\noff\nline 312\n";
    let found = Found {
        a: CopyState::Sound(56),
        b: CopyState::Sound(56),
    };
    expect_end(
        &rt,
        alloc,
        script,
        Status::ScriptFault,
        end,
        200,
        Left::Off(found),
    )
}

/// At the limit the first cut comes all the same, and the power is turned on behind it. A cut that came makes no room for
/// another, for its power-on is counted.
#[test]
fn a_cut_that_comes_at_the_limit(rt: HostRuntime) -> Result<(), Fail> {
    let mut script = with_far_cuts(rt.alloc(), &["cut sync 1 0"], 254)?;
    push_words(&mut script, &["bill 500\ncut sync 1 0\n"])?;
    let end =
        b"armed\npower 2: a sound 1, b sound 1\nstart at 2\nack bill 1 taken at 3\nline 257\n";
    expect_end(
        &rt,
        rt.alloc(),
        script,
        Status::ScriptFault,
        end,
        254,
        Left::Sound(3),
    )
}

/// At the limit the power stays off.
#[test]
fn turned_on_at_the_limit(rt: HostRuntime) -> Result<(), Fail> {
    let mut script = with_far_cuts(rt.alloc(), &["off"], 255)?;
    push_words(&mut script, &["on\n"])?;
    let end = b"armed\narmed\nline 257\n";
    expect_end(
        &rt,
        rt.alloc(),
        script,
        Status::ScriptFault,
        end,
        255,
        Left::Off(SOUND_1),
    )
}

/// At the limit a locked memory isn't cleared, and with one cut less it is.
#[test]
fn cleared_beside_armed_cuts(rt: HostRuntime) -> Result<(), Fail> {
    let alloc = rt.alloc();
    let mut script = with_far_cuts(alloc, LOCK, 254)?;
    push_words(&mut script, &["clear\n"])?;
    let fault = b"armed\nline 259\n";
    expect_end(
        &rt,
        alloc,
        script,
        Status::ScriptFault,
        fault,
        254,
        Left::Locked(LOST),
    )?;
    let mut less = with_far_cuts(alloc, LOCK, 253)?;
    push_words(&mut less, &["clear\n"])?;
    let end = b"armed\ncleared\npower 3: a sound 0, b sound 0\nstart at 1\nend at 1 credit 0\n";
    expect_end(&rt, alloc, less, Status::Done, end, 253, Left::Sound(1))
}

// ================ a long script

/// How often each of the cuts comes. A group has fifty lines: a cut, a bill, its repeat and comments.
const ROUNDS: usize = 8;

/// How many comments a group has.
const COMMENTS: usize = 47;

/// Cuts in a bill, at each of its syncs and of each kind, and the first once more. Beside each stands how many entries more than
/// before the bill copy a and copy b are found sound at, none where it is shut, and what is told of a repair.
#[rattlefmt::skip]
const LONG_CUTS: [(&str, Option<u64>, Option<u64>, &str); 25] = [
    ("1 0", Some(0), Some(0), ""), ("2 0", None, Some(0), " repaired a"), ("3 0", None, Some(0), " repaired a"),
    ("4 0", Some(1), Some(0), " repaired b"), ("5 0", Some(1), None, " repaired b"), ("6 0", Some(1), None, " repaired b"),
    ("1 1", None, Some(0), " repaired a"), ("2 1", None, Some(0), " repaired a"), ("3 1", Some(1), Some(0), " repaired b"),
    ("4 1", Some(1), None, " repaired b"), ("5 1", Some(1), None, " repaired b"), ("6 1", Some(1), Some(1), ""),
    ("1 2", Some(0), Some(0), ""), ("2 2", None, Some(0), " repaired a"), ("3 2", None, Some(0), " repaired a"),
    ("4 2", Some(1), Some(0), " repaired b"), ("5 2", Some(1), None, " repaired b"), ("6 2", Some(1), None, " repaired b"),
    ("1 3", Some(0), Some(0), ""), ("2 3", None, Some(0), " repaired a"), ("3 3", Some(1), Some(0), " repaired b"),
    ("4 3", Some(1), Some(0), " repaired b"), ("5 3", Some(1), None, " repaired b"), ("6 3", Some(1), Some(1), ""),
    ("1 0", Some(0), Some(0), ""),
];

/// Appends words and a number.
fn push_count(bytes: &mut Vec<u8>, words: &[&str], n: u64) -> Result<(), Fail> {
    push_words(bytes, words)?;
    let mut text = Text::new();
    push_number(&mut text, n);
    push_words(bytes, &[text.as_str()])
}

/// Appends what a copy is found to be, with so many entries more than this count.
fn push_found(bytes: &mut Vec<u8>, copy: &str, more: Option<u64>, count: u64) -> Result<(), Fail> {
    match more {
        Some(more) => push_count(bytes, &[copy, "sound "], count.saturating_add(more)),
        None => push_words(bytes, &[copy, "shut"]),
    }
}

/// Appends the report of a group: of bill `number`, over `count` entries, with the copies found so behind its cut. Where copy a
/// has the bill, it stands before the start, and is repeated behind it.
fn push_group(
    bytes: &mut Vec<u8>,
    number: u64,
    count: u64,
    a: Option<u64>,
    b: Option<u64>,
    repaired: &str,
) -> Result<(), Fail> {
    let one = count.saturating_add(1);
    let two = count.saturating_add(2);
    let (start, answer) = if a == Some(1) {
        (two, "again bill ")
    } else {
        (one, "ack bill ")
    };
    push_count(bytes, &["armed\npower "], number.saturating_add(1))?;
    push_found(bytes, ": a ", a, count)?;
    push_found(bytes, ", b ", b, count)?;
    push_count(bytes, &["\nstart at "], start)?;
    push_count(bytes, &[repaired, "\n", answer], number)?;
    push_count(bytes, &[" taken at "], two)?;
    push_count(bytes, &["\nagain bill "], number)?;
    push_count(bytes, &[" taken at "], two)?;
    push_words(bytes, &["\n"])
}

/// Ten thousand lines with two hundred cuts: each bill is taken once.
#[test]
fn ten_thousand_lines_with_two_hundred_cuts(rt: HostRuntime) -> Result<(), Fail> {
    let alloc = rt.alloc();
    let mut script = Vec::new(alloc);
    let mut wanted = report(alloc, &[])?;
    let mut number: u64 = 0;
    for _ in 0..ROUNDS {
        for (cut, a, b, repaired) in &LONG_CUTS {
            push_words(
                &mut script,
                &["cut sync ", *cut, "\nbill 100\nagain bill\n"],
            )?;
            for _ in 0..COMMENTS {
                push_words(&mut script, &["#\n"])?;
            }
            number = number.saturating_add(1);
            let count = number.saturating_mul(2).saturating_sub(1);
            push_group(&mut wanted, number, count, *a, *b, *repaired)?;
        }
    }
    push_words(&mut wanted, &["end at 401 credit 20000\n"])?;
    let told = Cut {
        script: &[],
        report: &[],
        status: Status::Done,
        left: Left::Sound(401),
        falls: &[],
        armed: 0,
    };
    expect_cuts(&rt, alloc, zeros(alloc), script, &wanted, &told)
}
