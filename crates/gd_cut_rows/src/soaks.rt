//! Soaks: items that a seed makes, with cuts of the power among them, and their summary.

ghost use Rattle.std.specs.Prelude.{◌≡◌, [], true};

use gd_base::{MemorySource, Text};
use gd_disk::{DISK_LEN, LabDisk, MemoryLab};
use gd_runs::runs::{Run, are_sound, lines, trial};
use gd_script::{MOST_GENERATED, generate, print_item};
use gd_top::Status;
use std::alloc::Global;
use std::process::Abort;
use std::test::Fail;

/// Room for a summary, and more.
const ROOM: usize = 1000;

/// Carries out the words over this laboratory, with room for as many bytes of output. Nothing is read.
fn soak<L: LabDisk + Drop>(
    alloc: Global,
    words: &[&str],
    room: usize,
    lab: L,
) -> Result<Run<L>, Fail>
    requires size { (L.state lab).size ≡ DISK_LEN }
    requires is_on { (L.state lab).is_on ≡ true }
    requires armed { (L.state lab).armed ≡ [] }
    requires found { (L.state lab).found ≡ [] }
{
    trial(
        alloc,
        words,
        MemorySource::of(Vec::new(alloc), Some(1)),
        room,
        lab,
    )
}

/// The summary of a thousand items of the seed 7, over blocks of zeros. The power is cut in the items 250 and 750.
const SUMMARY: &[&str] = &[
    "soak 1000 entries 1001 power 3 credit 17946",
    "BillIn 0000083200",
    "CoinIn 0000000125",
    "VoucherIn 0000052342",
    "Wagered 0000000455",
    "Won 0000000520",
    "VoucherOut 0000117786",
    "CoinOut 0000000000",
    "HandWin 0000000000",
    "HandCancel 0000000000",
    "GamesPlayed 0000000021",
    "GamesWon 0000000004",
    "PowerUps 0000000003",
    "LogicOpen 0000000000",
    "MainOpen 0000000006",
    "CashboxOpen 0000000000",
    "DropOpen 0000000000",
];

/// The summary is the same at each run, and both copies hold the last entry. No source is read: it would fail.
#[test]
fn soak_summary(rt: HostRuntime) -> Result<(), Fail> {
    let alloc = rt.alloc();
    let wanted = lines(alloc, SUMMARY)?;
    for _ in 0..2 {
        let lab = MemoryLab::new(alloc, DISK_LEN)?;
        let run = soak(alloc, &["soak", "1000", "7"], ROOM, lab)?;
        assert_eq!(&rt; run.status, Status::Done);
        assert_eq!(&rt; run.output.bytes(), wanted.as_slice());
        are_sound(alloc, run.lab, 1001)?;
    }
    Ok(())
}

/// The items of a soak as the lines of a script, with the meters shown behind them.
fn script_of(alloc: Global, count: u64, seed: u64) -> Result<Vec<u8>, Fail> {
    let mut bytes = Vec::new(alloc);
    let mut line = Text::new();
    for k in 0..count.min(MOST_GENERATED) {
        print_item(&generate(seed, k), &mut line);
        bytes.extend_from_slice(line.as_str().as_bytes())?;
    }
    bytes.extend_from_slice(b"show meters\n")?;
    Ok(bytes)
}

/// The meters of a soak's summary are those that a trial shows of the same items as lines.
fn expect_as_trial(
    rt: &impl Abort,
    alloc: Global,
    words: &[&str],
    script: Vec<u8>,
) -> Result<(), Fail> {
    let run = soak(alloc, words, ROOM, MemoryLab::new(alloc, DISK_LEN)?)?;
    assert_eq!(rt; run.status, Status::Done);
    let source = MemorySource::of(script, None);
    let told = trial(
        alloc,
        &["trial"],
        source,
        100_000,
        MemoryLab::new(alloc, DISK_LEN)?,
    )?;
    assert_eq!(rt; told.status, Status::Done);
    let Some(meters) = meters_of(run.output.bytes()) else {
        return Err(Fail::new("no meters in a summary"));
    };
    assert_eq!(rt; meters_of(told.output.bytes()).unwrap_or_default(), meters);
    Ok(())
}

/// The bytes of the sixteen meters, which begin with the first.
fn meters_of(report: &[u8]) -> Option<&[u8]> {
    let at = report
        .windows(7)
        .position(|word| word == b"BillIn ".as_slice())?;
    report.get(at..at + SUMMARY_METERS_LEN)
}

/// The bytes of sixteen lines, each a name, a space, ten digits and LF.
const SUMMARY_METERS_LEN: usize = 320;

#[test]
fn a_soak_is_a_trial_of_its_items(rt: HostRuntime) -> Result<(), Fail> {
    let alloc = rt.alloc();
    expect_as_trial(
        &rt,
        alloc,
        &["soak", "600", "11"],
        script_of(alloc, 600, 11)?,
    )?;
    expect_as_trial(&rt, alloc, &["soak", "1", "0"], script_of(alloc, 1, 0)?)
}

/// A sink that fails takes what it has room for, and a fault of the laboratory is told.
#[test]
fn soaks_that_fail(rt: HostRuntime) -> Result<(), Fail> {
    let alloc = rt.alloc();
    let run = soak(
        alloc,
        &["soak", "10", "7"],
        7,
        MemoryLab::new(alloc, DISK_LEN)?,
    )?;
    assert_eq!(&rt; run.status, Status::WriteFault);
    assert_eq!(&rt; run.output.bytes(), b"soak 10".as_slice());
    for call in [1, 12, 40, 100] {
        let run = soak(
            alloc,
            &["soak", "100", "7"],
            ROOM,
            MemoryLab::faulty(alloc, DISK_LEN, call)?,
        )?;
        assert_eq!(&rt; run.status, Status::DiskFault);
        assert_eq!(&rt; run.output.bytes(), b"disk fault\n".as_slice());
    }
    Ok(())
}
