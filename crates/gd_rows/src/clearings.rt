//! The lock that two altered copies lead to, and the clearing of a locked memory.

use gd_base::{ChaChaDraws, Draws, MemorySource};
use gd_disk::{DISK_LEN, LabDisk, MemoryLab};
use gd_runs::draws::three_scatters;
use gd_runs::left::{
    Altered, Left, ROOM, SHUT, SOUND_0, SOUND_1, expect, expect_left, expect_whole,
};
use gd_runs::locks::{LOCK, LOCK_REPORT, LOST};
use gd_runs::runs::{lines, report, trial_with_draws, zeros};
use gd_store::{CopyState, Found};
use gd_top::Status;
use std::alloc::Global;
use std::process::Abort;
use std::test::Fail;

// ================ the lock

/// Runs a trial that locks the memory with its first lines.
fn expect_under_lock<W: Draws + Drop>(
    alloc: Global,
    draws: W,
    wanted: &Altered,
) -> Result<(), Fail> {
    let mut script = lines(alloc, LOCK)?;
    script.extend_from_slice(&lines(alloc, wanted.script)?)?;
    let mut whole = report(alloc, LOCK_REPORT)?;
    whole.extend_from_slice(&lines(alloc, wanted.report)?)?;
    expect_whole(alloc, draws, script, wanted.status, &whole, wanted.left)
}

/// Both copies are altered in one off-period: the memory is locked, and stands as it was found.
#[test]
fn both_copies_altered(rt: HostRuntime) -> Result<(), Fail> {
    let wanted = Altered {
        script: &["bill 500"],
        status: Status::Locked,
        report: &["locked", "end locked"],
        left: Left::Locked(LOST),
    };
    expect_under_lock(rt.alloc(), zeros(rt.alloc()), &wanted)?;
    let cleared = Altered {
        script: &["bill 500", "clear", "bill 500"],
        status: Status::Done,
        report: &[
            "locked",
            "cleared",
            "power 3: a sound 0, b sound 0",
            "start at 1",
            "ack bill 1 taken at 2",
            "end at 2 credit 500",
        ],
        left: Left::Sound(2),
    };
    expect_under_lock(rt.alloc(), zeros(rt.alloc()), &cleared)
}

/// Lines under a lock, and what each prints. None where the line is a script fault.
#[rattlefmt::skip]
const UNDER_LOCK: &[(&str, Option<&[&str]>)] = &[
    // About the machine, by each of its devices. The number isn't looked at.
    ("bill 500", Some(&["locked"])),
    ("coin 25", Some(&["locked"])),
    ("voucher 7 2500", Some(&["locked"])),
    ("printed open", Some(&["locked"])),
    ("coin-paid 1", Some(&["locked"])),
    ("open main", Some(&["locked"])),
    ("handpay", Some(&["locked"])),
    ("play reels 1", Some(&["locked"])),
    ("pick 1", Some(&["locked"])),
    ("take", Some(&["locked"])),
    ("again bill", Some(&["locked"])),
    ("again attendant", Some(&["locked"])),
    ("as 1 bill 500", Some(&["locked"])),
    ("as 0 take", Some(&["locked"])),
    ("show meters", Some(&["locked"])),
    ("show state", Some(&["locked"])),
    ("show recall", Some(&["locked"])),
    ("order", Some(&["locked"])),
    // Comments.
    ("", Some(&[])),
    ("# bill 500", Some(&[])),
    // A cut is armed.
    ("cut sync 1 0", Some(&["armed"])),
    // About the power, which is on.
    ("off", None),
    ("on", None),
    ("alter a 0 255", None),
    // Outside the grammar.
    ("Clear", None),
    ("coin 025", None),
    ("show order", None),
];

/// What each line does under a lock. None of them changes the memory.
#[test]
fn lines_under_a_lock(rt: HostRuntime) -> Result<(), Fail> {
    for (line, printed) in UNDER_LOCK {
        let mut wanted = lines(rt.alloc(), printed.unwrap_or(&["line 5"]))?;
        let status = match printed {
            Some(_) => Status::Locked,
            None => Status::ScriptFault,
        };
        if printed.is_some() {
            wanted.extend_from_slice(b"end locked\n")?;
        }
        let mut script = lines(rt.alloc(), LOCK)?;
        script.extend_from_slice(&lines(rt.alloc(), &[*line])?)?;
        let mut whole = report(rt.alloc(), LOCK_REPORT)?;
        whole.extend_from_slice(&wanted)?;
        let draws = zeros(rt.alloc());
        expect_whole(
            rt.alloc(),
            draws,
            script,
            status,
            &whole,
            Left::Locked(LOST),
        )?;
    }
    Ok(())
}

// ================ the clearing

/// A locked memory is cleared behind a play that shows three scatters. The new history is empty, and its first play takes
/// a block of the next lap, which is of zeros and wins nothing.
#[test]
fn a_locked_memory_is_cleared(rt: HostRuntime) -> Result<(), Fail> {
    let wanted = Altered {
        script: &[
            "bill 500",
            "play reels 9",
            "off",
            "alter a 0 255",
            "alter b 9000 1",
            "on",
            "show state",
            "clear",
            "show state",
            "again bill",
            "bill 500",
            "again bill",
            "play reels 9",
            "show state",
            "off",
            "on",
            "show meters",
        ],
        status: Status::Done,
        report: &[
            "ack bill 1 taken at 2",
            "ack player 1 taken at 3",
            "off",
            "altered a 0",
            "altered b 9000",
            "power 2: a shut, b page 15",
            "locked",
            "locked",
            "cleared",
            "power 3: a sound 0, b sound 0",
            "start at 1",
            "credit 0",
            "condition none",
            "order none",
            "handpay none",
            "play none",
            "none bill",
            "ack bill 1 taken at 2",
            "again bill 1 taken at 2",
            "ack player 1 taken at 3",
            "credit 455",
            "condition none",
            "order none",
            "handpay none",
            "play none",
            "off",
            "power 4: a sound 3, b sound 3",
            "start at 4",
            "BillIn 0000000500",
            "CoinIn 0000000000",
            "VoucherIn 0000000000",
            "Wagered 0000000045",
            "Won 0000000000",
            "VoucherOut 0000000000",
            "CoinOut 0000000000",
            "HandWin 0000000000",
            "HandCancel 0000000000",
            "GamesPlayed 0000000001",
            "GamesWon 0000000000",
            "PowerUps 0000000002",
            "LogicOpen 0000000000",
            "MainOpen 0000000000",
            "CashboxOpen 0000000000",
            "DropOpen 0000000000",
            "end at 4 credit 455",
        ],
        left: Left::Sound(4),
    };
    expect(rt.alloc(), three_scatters(rt.alloc())?, &wanted)
}

/// Each clearing begins a lap of blocks. Of the seed 1, block 6 of lap 1 wins 10 credits on nine lines, and block 2 of
/// lap 2 shows three scatters; block 6 and block 2 of lap 0 do neither.
#[test]
fn other_blocks_behind_a_clearing(rt: HostRuntime) -> Result<(), Fail> {
    let wanted = Altered {
        script: &[
            "clear",
            "bill 500",
            "play reels 1",
            "play reels 1",
            "play reels 1",
            "play reels 1",
            "play reels 1",
            "play reels 9",
            "show state",
            "off",
            "alter a 0 255",
            "alter b 9000 1",
            "on",
            "clear",
            "bill 500",
            "play reels 1",
            "play reels 9",
            "show state",
        ],
        status: Status::Done,
        report: &[
            "cleared",
            "power 3: a sound 0, b sound 0",
            "start at 1",
            "ack bill 1 taken at 2",
            "ack player 1 taken at 3",
            "ack player 2 taken at 4",
            "ack player 3 taken at 5",
            "ack player 4 taken at 6",
            "ack player 5 taken at 7",
            "ack player 6 taken at 8",
            "credit 430",
            "condition none",
            "order none",
            "handpay none",
            "play 6 block 6 reels bet 9 wager 45",
            "window DDFDD ECDFC FFECF",
            "stage gamble win 50",
            "off",
            "altered a 0",
            "altered b 9000",
            "power 4: a shut, b page 15",
            "locked",
            "cleared",
            "power 5: a sound 0, b sound 0",
            "start at 1",
            "ack bill 1 taken at 2",
            "ack player 1 taken at 3",
            "ack player 2 taken at 4",
            "credit 450",
            "condition none",
            "order none",
            "handpay none",
            "play 2 block 2 reels bet 9 wager 45",
            "window FEDCS SDBEC ASEBF",
            "stage pick win 0",
            "end at 4 credit 450",
        ],
        left: Left::Sound(4),
    };
    expect_under_lock(rt.alloc(), ChaChaDraws::new(1), &wanted)
}

/// Scripts that clear a memory that isn't locked: the lines, those of the report, and what is left.
#[rattlefmt::skip]
const NOT_LOCKED: &[(&[&str], &[&str], Left)] = &[
    (&["clear"], &["line 1"], Left::Sound(1)),
    (&["off", "clear"], &["off", "line 2"], Left::Off(SOUND_1)),
    (&["off", "alter a 0 255", "on", "clear"], &["off", "altered a 0", "power 2: a shut, b sound 1", "start at 2 repaired a", "line 4"], Left::Sound(2)),
    // Two altered copies are no lock before they are read.
    (&["off", "alter a 0 255", "alter b 0 255", "clear"], &["off", "altered a 0", "altered b 0", "line 4"], Left::Off(Found { a: SHUT, b: SHUT })),
    // One clearing is enough.
    (&["off", "alter a 0 255", "alter b 0 255", "on", "clear", "clear"],
        &["off", "altered a 0", "altered b 0", "power 2: a shut, b shut", "locked", "cleared", "power 3: a sound 0, b sound 0", "start at 1", "line 6"], Left::Sound(1)),
];

/// Only a locked memory is cleared.
#[test]
fn cleared_without_a_lock(rt: HostRuntime) -> Result<(), Fail> {
    for (script, report, left) in NOT_LOCKED {
        let wanted = Altered {
            script,
            status: Status::ScriptFault,
            report,
            left: *left,
        };
        expect(rt.alloc(), zeros(rt.alloc()), &wanted)?;
    }
    Ok(())
}

/// How many pairs of `off` and `on` follow the first power-on of a trial before the last two that are allowed.
const PAIRS: usize = 253;

/// The last power-on that is allowed may be that of a clearing. Where it was used up before, the clearing is a script
/// fault, and the memory stays locked.
#[test]
fn cleared_at_the_limit(rt: HostRuntime) -> Result<(), Fail> {
    let alloc = rt.alloc();
    let mut pairs = Vec::new(alloc);
    for _ in 0..PAIRS {
        pairs.extend_from_slice(b"off\non\n")?;
    }
    let behind = lines(
        alloc,
        &["off", "alter a 0 255", "alter b 9000 1", "on", "clear"],
    )?;

    let mut last = pairs.clone()?;
    last.extend_from_slice(&behind)?;
    let wanted =
        b"start at 254\noff\naltered a 0\naltered b 9000\npower 255: a shut, b page 15\nlocked\ncleared\npower 256: a sound 0, b sound 0\nstart at 1\nend at 1 credit 0\n";
    expect_end(&rt, alloc, last, Status::Done, wanted, Left::Sound(1))?;

    let mut beyond = pairs;
    beyond.extend_from_slice(b"off\non\n")?;
    beyond.extend_from_slice(&behind)?;
    let wanted =
        b"start at 255\noff\naltered a 0\naltered b 9000\npower 256: a shut, b page 15\nlocked\nline 513\n";
    expect_end(
        &rt,
        alloc,
        beyond,
        Status::ScriptFault,
        wanted,
        Left::Locked(LOST),
    )
}

/// Runs a trial: its status, the end of its report and what it leaves are as wanted.
fn expect_end(
    rt: &impl Abort,
    alloc: Global,
    script: Vec<u8>,
    status: Status,
    end: &[u8],
    left: Left,
) -> Result<(), Fail> {
    let source = MemorySource::of(script, None);
    let lab = MemoryLab::new(alloc, DISK_LEN)?;
    let run = trial_with_draws(alloc, &["trial"], source, 20_000, lab, zeros(alloc))?;
    assert_eq!(rt; run.status, status);
    assert!(rt; run.output.bytes().ends_with(end));
    expect_left(alloc, run.lab, left)
}

// ================ failures of what is outside

/// The lines of a run that locks the memory, tells it and clears it.
const CLEARING: &[&str] = &[
    "off",
    "alter a 0 255",
    "alter b 9000 1",
    "on",
    "bill 500",
    "clear",
];

/// The lines of its report, with what stands while each is written: its line was carried out.
#[rattlefmt::skip]
const CLEARING_REPORT: &[(&str, Left)] = &[
    ("power 1: a sound 0, b sound 0", Left::Sound(1)),
    ("start at 1", Left::Sound(1)),
    ("off", Left::Off(SOUND_1)),
    ("altered a 0", Left::Off(Found { a: SHUT, b: CopyState::Sound(1) })),
    ("altered b 9000", Left::Off(LOST)),
    ("power 2: a shut, b page 15", Left::Locked(LOST)),
    ("locked", Left::Locked(LOST)),
    ("locked", Left::Locked(LOST)),
    ("cleared", Left::Off(SOUND_0)),
    ("power 3: a sound 0, b sound 0", Left::Sound(1)),
    ("start at 1", Left::Sound(1)),
    ("end at 1 credit 0", Left::Sound(1)),
];

/// The first lines of the report.
fn first_lines(alloc: Global, count: usize) -> Result<Vec<u8>, Fail> {
    let mut bytes = Vec::new(alloc);
    for (line, _) in CLEARING_REPORT.iter().take(count) {
        bytes.extend_from_slice(&lines(alloc, &[*line])?)?;
    }
    Ok(bytes)
}

/// Where the sink fails behind the first byte of a line, what the line tells was done all the same.
#[test]
fn a_sink_that_fails_in_each_line(rt: HostRuntime) -> Result<(), Fail> {
    let alloc = rt.alloc();
    let mut whole = Vec::new(alloc);
    for (line, left) in CLEARING_REPORT {
        let mut front = whole.clone()?;
        push_first(&mut front, line)?;
        let source = MemorySource::of(lines(alloc, CLEARING)?, None);
        let lab = MemoryLab::new(alloc, DISK_LEN)?;
        let run = trial_with_draws(alloc, &["trial"], source, front.len(), lab, zeros(alloc))?;
        assert_eq!(rt; run.status, Status::WriteFault);
        assert_eq!(rt; run.output.bytes(), front.as_slice());
        expect_left(alloc, run.lab, *left)?;
        whole.extend_from_slice(&lines(alloc, &[*line])?)?;
    }
    Ok(())
}

/// Appends the first byte of a line.
fn push_first(bytes: &mut Vec<u8>, line: &str) -> Result<(), Fail> {
    for byte in line.as_bytes().iter().take(1) {
        bytes.push(*byte)?;
    }
    Ok(())
}

/// Calls of the disk from the first to the last of each part of the run, and how many lines of the report stand before
/// `disk fault` where one of them fails. An alteration and a line under a lock make no call.
const CALLS: &[(u64, u64, usize)] = &[
    // The reading of both copies, which are lost, behind the 31 calls of the first making and its opening.
    (32, 33, 5),
    // The making: two reads, a write that shuts gate b alone, a sync, and two writes with a sync each for either copy.
    (34, 45, 8),
    // The first reading of both copies,
    (46, 47, 9),
    // and their second reading with the start.
    (48, 65, 10),
];

/// Behind the last of these calls there is none.
const BEHIND_LAST: u64 = 66;

/// At a fault of the disk the report stands up to the failing call. The power is off then.
#[test]
fn a_disk_that_fails_in_a_clearing(rt: HostRuntime) -> Result<(), Fail> {
    let alloc = rt.alloc();
    for (first, last, count) in CALLS {
        let mut wanted = first_lines(alloc, *count)?;
        wanted.extend_from_slice(b"disk fault\n")?;
        for call in *first..=*last {
            expect_fault(&rt, alloc, call, Status::DiskFault, &wanted)?;
        }
    }
    let whole = first_lines(alloc, CLEARING_REPORT.len())?;
    expect_fault(&rt, alloc, BEHIND_LAST, Status::Done, &whole)
}

/// With a fault at this call of the disk the run ends so. At a fault the power is off.
fn expect_fault(
    rt: &impl Abort,
    alloc: Global,
    call: u64,
    status: Status,
    wanted: &[u8],
) -> Result<(), Fail> {
    let source = MemorySource::of(lines(alloc, CLEARING)?, None);
    let lab = MemoryLab::faulty(alloc, DISK_LEN, call)?;
    let run = trial_with_draws(alloc, &["trial"], source, ROOM, lab, zeros(alloc))?;
    assert_eq!(rt; run.status, status);
    assert_eq!(rt; run.output.bytes(), wanted);
    assert_eq!(rt; run.lab.powered(), status == Status::Done);
    Ok(())
}
