//! Trials under the built-in setup and under others, over a core that is handed in and by the option of the program.

use crate::plays::royal_flush;
use gd_base::{Draws, ListDraws, MemorySink, MemorySource, Setup, Text, push_number};
use gd_disk::{DISK_LEN, MemoryLab};
use gd_games::{built_in, read_setup};
use gd_image::Platform;
use gd_runs::draws::three_scatters;
use gd_runs::left::{Altered, Left, ROOM, expect, expect_left, push_words};
use gd_runs::runs::{lines, report, trial_with_setup, zeros};
use gd_store::Room;
use gd_top::{Status, carry};
use std::alloc::Global;
use std::process::Abort;
use std::test::Fail;

/// Runs a script over a new core under this setup: its status, its whole report and what it leaves are as wanted. No cut comes.
fn expect_carried<W: Draws + Drop>(
    rt: &impl Abort,
    alloc: Global,
    setup: Setup,
    draws: W,
    script: Vec<u8>,
    status: Status,
    report: &[u8],
    left: Left,
) -> Result<(), Fail> {
    let core = Platform::new(alloc, setup)?;
    let room = Room::new(alloc)?;
    let mut input = MemorySource::of(script, None);
    let mut output = MemorySink::with_room(alloc, ROOM)?;
    let lab = MemoryLab::new(alloc, DISK_LEN)?;
    let ended = carry(core, room, &mut input, &mut output, lab, draws);
    assert_eq!(rt; ended.status, status);
    assert_eq!(rt; output.bytes(), report);
    assert!(rt; ended.falls.as_slice().is_empty());
    expect_left(alloc, ended.lab, left)
}

/// The same of a row.
fn expect_row<W: Draws + Drop>(
    rt: &impl Abort,
    alloc: Global,
    setup: Setup,
    draws: W,
    wanted: &Altered,
) -> Result<(), Fail> {
    let script = lines(alloc, wanted.script)?;
    let report = report(alloc, wanted.report)?;
    expect_carried(
        rt,
        alloc,
        setup,
        draws,
        script,
        wanted.status,
        &report,
        wanted.left,
    )
}

/// The setup of a file.
fn setup_of(alloc: Global, file: &str) -> Result<Setup, Fail> {
    match read_setup(alloc, file.as_bytes()) {
        Ok(setup) => Ok(setup),
        Err(_) => Err(Fail::new("no setup")),
    }
}

// ================ under the built-in setup, and under another

#[rattlefmt::skip]
const ONE_BILL_AND_METERS: Altered = Altered {
    script: &[
        "bill 500", "show meters",
    ],
    status: Status::Done,
    report: &[
        "ack bill 1 taken at 2", "BillIn 0000000500", "CoinIn 0000000000", "VoucherIn 0000000000", "Wagered 0000000000",
        "Won 0000000000", "VoucherOut 0000000000", "CoinOut 0000000000", "HandWin 0000000000", "HandCancel 0000000000",
        "GamesPlayed 0000000000", "GamesWon 0000000000", "PowerUps 0000000001", "LogicOpen 0000000000",
        "MainOpen 0000000000", "CashboxOpen 0000000000", "DropOpen 0000000000", "end at 2 credit 500",
    ],
    left: Left::Sound(2),
};

#[rattlefmt::skip]
const POWER_CUT_AT_REST: Altered = Altered {
    script: &[
        "bill 500", "off", "on", "show meters",
    ],
    status: Status::Done,
    report: &[
        "ack bill 1 taken at 2", "off", "power 2: a sound 2, b sound 2", "start at 3", "BillIn 0000000500",
        "CoinIn 0000000000", "VoucherIn 0000000000", "Wagered 0000000000", "Won 0000000000", "VoucherOut 0000000000",
        "CoinOut 0000000000", "HandWin 0000000000", "HandCancel 0000000000", "GamesPlayed 0000000000",
        "GamesWon 0000000000", "PowerUps 0000000002", "LogicOpen 0000000000", "MainOpen 0000000000",
        "CashboxOpen 0000000000", "DropOpen 0000000000", "end at 3 credit 500",
    ],
    left: Left::Sound(3),
};

#[test]
fn under_the_built_in_setup(rt: HostRuntime) -> Result<(), Fail> {
    for row in [&ONE_BILL_AND_METERS, &POWER_CUT_AT_REST] {
        expect_row(&rt, rt.alloc(), built_in(), zeros(rt.alloc()), row)?;
    }
    Ok(())
}

/// A setup of two bills, ten cents for a credit, no hopper and no poker. A win of 900 cents isn't gambled, and is paid by the
/// attendant.
const OTHER_SETUP: &str =
    "denom = 10\nhandpay_limit = 900\ngamble_limit = 900\nbills = [300, 500]\nhopper = false\npoker.enabled = false\n";

/// A bill that has no value here, and a game that there isn't. The pick, which stands through a loss of power, wins 90 credits, 900
/// cents: the play ends with it, and the attendant pays. 410 cents are printed, where the built-in setup has coins.
#[rattlefmt::skip]
const OTHER_ROW: Altered = Altered {
    script: &[
        "bill 100", "bill 500", "play poker 1", "play reels 9", "off", "on", "pick 2", "show state", "cashout", "handpay",
        "cashout", "order", "printed open", "show recall", "show events", "show meters",
    ],
    status: Status::Done,
    report: &[
        "ack bill 1 refused 3 value-not-enabled at 2", "ack bill 2 taken at 3", "ack player 1 refused 4 no-game at 4",
        "ack player 2 taken at 5", "off", "power 2: a sound 5, b sound 5", "start at 6", "ack player 3 taken at 7",
        "credit 410", "condition handpay", "order none", "handpay win 900", "play none",
        "ack player 4 refused 1 locked-up handpay at 8", "ack attendant 1 taken at 9", "ack player 5 taken at 10",
        "order 1 printer 410", "ack printer 1 taken at 11", "recall 1", "play 1 block 1 reels bet 9 wager 90",
        "window SSSFC AFACF BEDEB", "pick 2 prize 90", "win 900 before 500 after 410", "events 4", "9 handpay-done 900",
        "7 handpay-win 900", "6 start", "1 start", "bills 1", "3 500", "vouchers 1", "11 out 1 410", "BillIn 0000000500",
        "CoinIn 0000000000", "VoucherIn 0000000000", "Wagered 0000000090", "Won 0000000900", "VoucherOut 0000000410",
        "CoinOut 0000000000", "HandWin 0000000900", "HandCancel 0000000000", "GamesPlayed 0000000001",
        "GamesWon 0000000001", "PowerUps 0000000002", "LogicOpen 0000000000", "MainOpen 0000000000",
        "CashboxOpen 0000000000", "DropOpen 0000000000", "end at 11 credit 0",
    ],
    left: Left::Sound(11),
};

#[test]
fn under_another_setup(rt: HostRuntime) -> Result<(), Fail> {
    let setup = setup_of(rt.alloc(), OTHER_SETUP)?;
    let draws = three_scatters(rt.alloc())?;
    expect_row(&rt, rt.alloc(), setup, draws, &OTHER_ROW)
}

// ================ a royal flush, below the handpay limit and at it

/// 1,250 credits are won, 6,250 cents, and go to the balance.
#[rattlefmt::skip]
const TAKEN: Altered = Altered {
    script: &[
        "bill 500", "play poker 5", "hold 11111", "take",
    ],
    status: Status::Done,
    report: &[
        "ack bill 1 taken at 2", "ack player 1 taken at 3", "ack player 2 taken at 4", "ack player 3 taken at 5",
        "end at 5 credit 6725",
    ],
    left: Left::Sound(5),
};

/// The same is held, and the balance has none of it.
#[rattlefmt::skip]
const HELD: Altered = Altered {
    script: &[
        "bill 500", "play poker 5", "hold 11111", "take",
    ],
    status: Status::Done,
    report: &[
        "ack bill 1 taken at 2", "ack player 1 taken at 3", "ack player 2 taken at 4", "ack player 3 taken at 5",
        "end at 5 credit 475",
    ],
    left: Left::Sound(5),
};

/// It is held until the attendant pays it.
#[rattlefmt::skip]
const PAID_BY_HAND: Altered = Altered {
    script: &[
        "bill 500", "play poker 5", "hold 11111", "take", "cashout", "handpay", "show meters",
    ],
    status: Status::Done,
    report: &[
        "ack bill 1 taken at 2", "ack player 1 taken at 3", "ack player 2 taken at 4", "ack player 3 taken at 5",
        "ack player 4 refused 1 locked-up handpay at 6", "ack attendant 1 taken at 7", "BillIn 0000000500",
        "CoinIn 0000000000", "VoucherIn 0000000000", "Wagered 0000000025", "Won 0000006250", "VoucherOut 0000000000",
        "CoinOut 0000000000", "HandWin 0000006250", "HandCancel 0000000000", "GamesPlayed 0000000001",
        "GamesWon 0000000001", "PowerUps 0000000001", "LogicOpen 0000000000", "MainOpen 0000000000",
        "CashboxOpen 0000000000", "DropOpen 0000000000", "end at 7 credit 475",
    ],
    left: Left::Sound(7),
};

/// Block 1 deals a royal flush.
fn royal_flush_first(alloc: Global) -> Result<ListDraws, Fail> {
    Ok(ListDraws::of(vec![in alloc; [0; 16], royal_flush()]?))
}

#[test]
fn royal_flush_and_handpay(rt: HostRuntime) -> Result<(), Fail> {
    let alloc = rt.alloc();
    expect(alloc, royal_flush_first(alloc)?, &TAKEN)?;
    let above = setup_of(alloc, "handpay_limit = 6251\n")?;
    expect_row(&rt, alloc, above, royal_flush_first(alloc)?, &TAKEN)?;
    let at = setup_of(alloc, "handpay_limit = 6250\n")?;
    expect_row(&rt, alloc, at, royal_flush_first(alloc)?, &HELD)?;
    expect_row(&rt, alloc, at, royal_flush_first(alloc)?, &PAID_BY_HAND)
}

// ================ by the option of the program

/// The same of a row that the program carries out, under the setup of this file.
fn expect_by_option<W: Draws + Drop>(
    rt: &impl Abort,
    alloc: Global,
    file: &str,
    draws: W,
    wanted: &Altered,
) -> Result<(), Fail> {
    let setup = MemorySource::of(lines(alloc, &[file])?, None);
    let script = MemorySource::of(lines(alloc, wanted.script)?, None);
    let lab = MemoryLab::new(alloc, DISK_LEN)?;
    let words = &["trial", "--setup", "file"];
    let run = trial_with_setup(alloc, words, setup, script, ROOM, lab, draws)?;
    assert_eq!(rt; run.status, wanted.status);
    assert_eq!(rt;
        run.output.bytes(),
        report(alloc, wanted.report)?.as_slice()
    );
    expect_left(alloc, run.lab, wanted.left)
}

#[test]
fn setups_by_their_option(rt: HostRuntime) -> Result<(), Fail> {
    let alloc = rt.alloc();
    expect_by_option(&rt, alloc, OTHER_SETUP, three_scatters(alloc)?, &OTHER_ROW)?;
    let above = "handpay_limit = 6251";
    expect_by_option(&rt, alloc, above, royal_flush_first(alloc)?, &TAKEN)?;
    let at = "handpay_limit = 6250";
    expect_by_option(&rt, alloc, at, royal_flush_first(alloc)?, &PAID_BY_HAND)
}

// ================ a meter that rolls over

/// A setup of three bills, of which the largest is the credit limit and may be printed.
const LARGE_BILLS: &str =
    "credit_limit = 100000000\nbills = [1, 99999999, 100000000]\nvoucher_limit = 100000000\n";

/// How many bills come before the last, each printed on a voucher of its own.
const BILLS: u64 = 100;

/// The end of the script.
const ROLLING_END: &[&str] = &["show meters\n", "bill 1\n", "show meters\n", "show state\n"];

/// The end of the report. BillIn and VoucherOut are 9,999,999,999 cents, and one cent more comes in.
#[rattlefmt::skip]
const ROLLED_OVER: &[&str] = &[
    "BillIn 9999999999\n", "CoinIn 0000000000\n", "VoucherIn 0000000000\n", "Wagered 0000000000\n", "Won 0000000000\n",
    "VoucherOut 9999999999\n", "CoinOut 0000000000\n", "HandWin 0000000000\n", "HandCancel 0000000000\n",
    "GamesPlayed 0000000000\n", "GamesWon 0000000000\n", "PowerUps 0000000001\n", "LogicOpen 0000000000\n",
    "MainOpen 0000000000\n", "CashboxOpen 0000000000\n", "DropOpen 0000000000\n", "ack bill 101 taken at 302\n",
    "BillIn 0000000000\n", "CoinIn 0000000000\n", "VoucherIn 0000000000\n", "Wagered 0000000000\n", "Won 0000000000\n",
    "VoucherOut 9999999999\n", "CoinOut 0000000000\n", "HandWin 0000000000\n", "HandCancel 0000000000\n",
    "GamesPlayed 0000000000\n", "GamesWon 0000000000\n", "PowerUps 0000000001\n", "LogicOpen 0000000000\n",
    "MainOpen 0000000000\n", "CashboxOpen 0000000000\n", "DropOpen 0000000000\n", "credit 1\n", "condition none\n",
    "order none\n", "handpay none\n", "play none\n", "end at 302 credit 1\n",
];

/// Appends the answer to the next event of a device, which is taken.
fn push_taken(bytes: &mut Vec<u8>, device: &str, number: u64, count: u64) -> Result<(), Fail> {
    let mut text = Text::new();
    push_number(&mut text, number);
    push_words(bytes, &["ack ", device, " ", text.as_str(), " taken at "])?;
    text.clear();
    push_number(&mut text, count);
    push_words(bytes, &[text.as_str(), "\n"])
}

/// Ninety-nine bills of 100,000,000 cents and one of 99,999,999 are each printed. The whole total is kept, of which a meter shows
/// ten digits.
#[test]
fn meter_rolls_over(rt: HostRuntime) -> Result<(), Fail> {
    let alloc = rt.alloc();
    let mut script = Vec::new(alloc);
    let mut wanted = report(alloc, &[])?;
    let mut count: u64 = 1;
    for number in 1..=BILLS {
        let bill = if number < BILLS {
            "bill 100000000\n"
        } else {
            "bill 99999999\n"
        };
        push_words(&mut script, &[bill, "cashout\nprinted open\n"])?;
        for device in ["bill", "player", "printer"] {
            count = count.saturating_add(1);
            push_taken(&mut wanted, device, number, count)?;
        }
    }
    push_words(&mut script, ROLLING_END)?;
    push_words(&mut wanted, ROLLED_OVER)?;
    expect_carried(
        &rt,
        alloc,
        setup_of(alloc, LARGE_BILLS)?,
        zeros(alloc),
        script,
        Status::Done,
        &wanted,
        Left::Sound(302),
    )
}
