//! What no clause says: that a run with ample memory meets no want of it, and the reports as the formats have them.

use gd_base::{ChaChaDraws, Draws, MemorySource};
use gd_disk::{DISK_LEN, LabDisk, MemoryLab};
use gd_runs::draws::three_scatters;
use gd_runs::runs::{are_sound, lines, report, trial, trial_with_draws, zeros};
use gd_top::Status;
use std::alloc::Global;
use std::process::Abort;
use std::test::Fail;

/// A trial over a new memory.
#[derive(Drop)]
pub(crate) struct Trial<'a> {
    /// The lines of the script.
    pub(crate) script: &'a [&'a str],
    pub(crate) status: Status,
    /// The lines of the report behind those of the opening.
    pub(crate) report: &'a [&'a str],
    /// The count at which both copies are sound. None where the power is off at the end.
    pub(crate) entries: Option<u64>,
}

/// The most bytes of a report.
const ROOM: usize = 1000;

/// Runs a trial with these draws: its status, its report and what it leaves are as wanted.
pub(crate) fn expect<W: Draws + Drop>(
    rt: &impl Abort,
    alloc: Global,
    draws: W,
    wanted: &Trial,
) -> Result<(), Fail> {
    let script = MemorySource::of(lines(alloc, wanted.script)?, None);
    let lab = MemoryLab::new(alloc, DISK_LEN)?;
    let run = trial_with_draws(alloc, &["trial"], script, ROOM, lab, draws)?;
    assert_eq!(rt; run.status, wanted.status);
    let report = report(alloc, wanted.report)?;
    assert_eq!(rt; run.output.bytes(), report.as_slice());
    match wanted.entries {
        Some(count) => are_sound(alloc, run.lab, count),
        None => {
            assert_eq!(rt; run.lab.powered(), false);
            Ok(())
        }
    }
}

#[test]
fn one_bill_and_meters(rt: HostRuntime) -> Result<(), Fail> {
    let wanted = Trial {
        script: &["bill 500", "show meters"],
        status: Status::Done,
        report: &[
            "ack bill 1 taken at 2",
            "BillIn 0000000500",
            "CoinIn 0000000000",
            "VoucherIn 0000000000",
            "Wagered 0000000000",
            "Won 0000000000",
            "VoucherOut 0000000000",
            "CoinOut 0000000000",
            "HandWin 0000000000",
            "HandCancel 0000000000",
            "GamesPlayed 0000000000",
            "GamesWon 0000000000",
            "PowerUps 0000000001",
            "LogicOpen 0000000000",
            "MainOpen 0000000000",
            "CashboxOpen 0000000000",
            "DropOpen 0000000000",
            "end at 2 credit 500",
        ],
        entries: Some(2),
    };
    expect(&rt, rt.alloc(), zeros(rt.alloc()), &wanted)
}

#[test]
fn power_cut_at_rest(rt: HostRuntime) -> Result<(), Fail> {
    let wanted = Trial {
        script: &["bill 500", "off", "on", "show meters"],
        status: Status::Done,
        report: &[
            "ack bill 1 taken at 2",
            "off",
            "power 2: a sound 2, b sound 2",
            "start at 3",
            "BillIn 0000000500",
            "CoinIn 0000000000",
            "VoucherIn 0000000000",
            "Wagered 0000000000",
            "Won 0000000000",
            "VoucherOut 0000000000",
            "CoinOut 0000000000",
            "HandWin 0000000000",
            "HandCancel 0000000000",
            "GamesPlayed 0000000000",
            "GamesWon 0000000000",
            "PowerUps 0000000002",
            "LogicOpen 0000000000",
            "MainOpen 0000000000",
            "CashboxOpen 0000000000",
            "DropOpen 0000000000",
            "end at 3 credit 500",
        ],
        entries: Some(3),
    };
    expect(&rt, rt.alloc(), zeros(rt.alloc()), &wanted)
}

/// A draw stands through a power loss before its pick. Behind door 2 is 10 times 9 credits, which are 450 cents.
#[test]
fn kept_draw_shows_state(rt: HostRuntime) -> Result<(), Fail> {
    let wanted = Trial {
        script: &[
            "bill 500",
            "play reels 9",
            "off",
            "on",
            "show state",
            "pick 2",
            "take",
        ],
        status: Status::Done,
        report: &[
            "ack bill 1 taken at 2",
            "ack player 1 taken at 3",
            "off",
            "power 2: a sound 3, b sound 3",
            "start at 4",
            "credit 455",
            "condition none",
            "order none",
            "handpay none",
            "play 1 block 1 reels bet 9 wager 45",
            "window SSSFC AFACF BEDEB",
            "stage pick win 0",
            "ack player 2 taken at 5",
            "ack player 3 taken at 6",
            "end at 6 credit 905",
        ],
        entries: Some(6),
    };
    expect(&rt, rt.alloc(), three_scatters(rt.alloc())?, &wanted)
}

/// A win that waits for the player stands through a power loss. The blocks are those of the seed 1: block 5 wins 10
/// credits, and the start passes over block 6.
#[test]
fn win_of_a_seed_waits_over_a_power_loss(rt: HostRuntime) -> Result<(), Fail> {
    let wanted = Trial {
        script: &[
            "bill 500",
            "play reels 1",
            "play reels 1",
            "play reels 1",
            "play reels 1",
            "play reels 1",
            "off",
            "on",
            "show state",
            "take",
            "play reels 1",
        ],
        status: Status::Done,
        report: &[
            "ack bill 1 taken at 2",
            "ack player 1 taken at 3",
            "ack player 2 taken at 4",
            "ack player 3 taken at 5",
            "ack player 4 taken at 6",
            "ack player 5 taken at 7",
            "off",
            "power 2: a sound 7, b sound 7",
            "start at 8",
            "credit 475",
            "condition none",
            "order none",
            "handpay none",
            "play 5 block 5 reels bet 1 wager 5",
            "window FEFDC DDWFF ESAEB",
            "stage gamble win 50",
            "ack player 6 taken at 9",
            "ack player 7 taken at 10",
            "end at 10 credit 520",
        ],
        entries: Some(10),
    };
    expect(&rt, rt.alloc(), ChaChaDraws::new(1), &wanted)
}

/// What the player's events are refused with. A refused play draws nothing, so the first that is taken has block 1.
#[test]
fn refusals_of_the_player(rt: HostRuntime) -> Result<(), Fail> {
    let wanted = Trial {
        script: &[
            "play reels 1",
            "bill 500",
            "pick 1",
            "play reels 10",
            "play reels 9",
            "play reels 9",
            "take",
            "pick 2",
            "pick 2",
            "take",
            "take",
        ],
        status: Status::Done,
        report: &[
            "ack player 1 refused 6 no-credit at 2",
            "ack bill 1 taken at 3",
            "ack player 2 refused 8 no-play at 4",
            "ack player 3 refused 5 bad-wager at 5",
            "ack player 4 taken at 6",
            "ack player 5 refused 7 play-open at 7",
            "ack player 6 refused 9 bad-choice at 8",
            "ack player 7 taken at 9",
            "ack player 8 refused 9 bad-choice at 10",
            "ack player 9 taken at 11",
            "ack player 10 refused 8 no-play at 12",
            "end at 12 credit 905",
        ],
        entries: Some(12),
    };
    expect(&rt, rt.alloc(), three_scatters(rt.alloc())?, &wanted)
}

#[test]
fn power_off_at_the_end(rt: HostRuntime) -> Result<(), Fail> {
    let wanted = Trial {
        script: &[
            "# the evening ends",
            "",
            "bill 500",
            "off",
            "# nothing more",
        ],
        status: Status::Done,
        report: &["ack bill 1 taken at 2", "off", "end off"],
        entries: None,
    };
    expect(&rt, rt.alloc(), zeros(rt.alloc()), &wanted)
}

/// How many pairs of `off` and `on` follow the first power-on of a trial that reaches the last that is allowed.
const PAIRS: usize = 255;

#[test]
fn as_many_power_ons_as_are_allowed(rt: HostRuntime) -> Result<(), Fail> {
    let alloc = rt.alloc();
    let mut bytes = Vec::new(alloc);
    for _ in 0..PAIRS {
        bytes.extend_from_slice(b"off\non\n")?;
    }
    let lab = MemoryLab::new(alloc, DISK_LEN)?;
    let most = MemorySource::of(bytes.clone()?, None);
    let run = trial(alloc, &["trial"], most, 20_000, lab)?;
    assert_eq!(rt; run.status, Status::Done);
    let wanted = b"start at 256\nend at 256 credit 0\n";
    assert!(rt; run.output.bytes().ends_with(wanted));
    are_sound(alloc, run.lab, 256)?;

    bytes.extend_from_slice(b"off\non\nbill 500\n")?;
    let lab = MemoryLab::new(alloc, DISK_LEN)?;
    let more = MemorySource::of(bytes, None);
    let run = trial(alloc, &["trial"], more, 20_000, lab)?;
    assert_eq!(rt; run.status, Status::ScriptFault);
    let wanted = b"start at 256\noff\nline 512\n";
    assert!(rt; run.output.bytes().ends_with(wanted));
    assert_eq!(rt; run.lab.powered(), false);
    Ok(())
}

/// Scripts with a line that the power forbids: the lines, those of the report, and the count that is left, as in a
/// trial.
#[rattlefmt::skip]
const FORBIDDEN: &[(&[&str], &[&str], Option<u64>)] = &[
    (&["on"], &["line 1"], Some(1)),
    (&["off", "off"], &["off", "line 2"], None),
    (&["off", "bill 500"], &["off", "line 2"], None),
    (&["off", "show meters", "on"], &["off", "line 2"], None),
];

#[test]
fn lines_that_the_power_forbids(rt: HostRuntime) -> Result<(), Fail> {
    for (script, report, entries) in FORBIDDEN {
        let wanted = Trial {
            script,
            status: Status::ScriptFault,
            report,
            entries: *entries,
        };
        expect(&rt, rt.alloc(), zeros(rt.alloc()), &wanted)?;
    }
    Ok(())
}

#[test]
fn empty_script(rt: HostRuntime) -> Result<(), Fail> {
    let wanted = Trial {
        script: &[],
        status: Status::Done,
        report: &["end at 1 credit 0"],
        entries: Some(1),
    };
    expect(&rt, rt.alloc(), zeros(rt.alloc()), &wanted)
}

#[test]
fn script_fault(rt: HostRuntime) -> Result<(), Fail> {
    let wanted = Trial {
        script: &["bill 500", "bill 300", "bill 0500", "bill 500"],
        status: Status::ScriptFault,
        report: &[
            "ack bill 1 taken at 2",
            "ack bill 2 refused 3 value-not-enabled at 3",
            "line 3",
        ],
        entries: Some(3),
    };
    expect(&rt, rt.alloc(), zeros(rt.alloc()), &wanted)
}

#[test]
fn read_fault(rt: HostRuntime) -> Result<(), Fail> {
    let alloc = rt.alloc();
    let failing = MemorySource::of(Vec::new(alloc), Some(1));
    let lab = MemoryLab::new(alloc, DISK_LEN)?;
    let run = trial(alloc, &["trial"], failing, ROOM, lab)?;
    assert_eq!(rt; run.status, Status::ReadFault);
    let wanted = report(alloc, &["read fault"])?;
    assert_eq!(rt; run.output.bytes(), wanted.as_slice());
    are_sound(alloc, run.lab, 1)
}

#[test]
fn write_fault(rt: HostRuntime) -> Result<(), Fail> {
    let alloc = rt.alloc();
    let lab = MemoryLab::new(alloc, DISK_LEN)?;
    let script = MemorySource::of(lines(alloc, &["bill 500"])?, None);
    let run = trial(alloc, &["trial"], script, 10, lab)?;
    assert_eq!(rt; run.status, Status::WriteFault);
    assert_eq!(rt; run.output.bytes(), b"power 1: a".as_slice());
    are_sound(alloc, run.lab, 1)
}

#[test]
fn disk_fault(rt: HostRuntime) -> Result<(), Fail> {
    let alloc = rt.alloc();
    let lab = MemoryLab::faulty(alloc, DISK_LEN, 1)?;
    let script = MemorySource::of(lines(alloc, &["bill 500"])?, None);
    let run = trial(alloc, &["trial"], script, ROOM, lab)?;
    assert_eq!(rt; run.status, Status::DiskFault);
    assert_eq!(rt; run.output.bytes(), b"disk fault\n".as_slice());
    Ok(())
}

#[test]
fn usage(rt: HostRuntime) -> Result<(), Fail> {
    let alloc = rt.alloc();
    let lab = MemoryLab::new(alloc, DISK_LEN)?;
    let nothing = MemorySource::of(Vec::new(alloc), None);
    let none = trial(alloc, &[], nothing, ROOM, lab)?;
    assert_eq!(rt; none.status, Status::Usage);
    assert_eq!(rt; none.output.bytes(), b"usage\n".as_slice());
    let lab = MemoryLab::new(alloc, DISK_LEN)?;
    let nothing = MemorySource::of(Vec::new(alloc), None);
    let two = trial(alloc, &["trial", "x"], nothing, ROOM, lab)?;
    assert_eq!(rt; two.status, Status::Usage);
    assert_eq!(rt; two.output.bytes(), b"usage\n".as_slice());
    Ok(())
}
