//! One evening of bills, plays, a door and a tilt, with a cash-out that is cut.

use gd_runs::left::{Left, expect_whole, push_words};
use gd_runs::runs::{lines, report, zeros};
use gd_top::Status;
use std::test::Fail;

/// How often each game is played in the evening.
const TIMES: usize = 20;

/// What comes behind the plays.
#[rattlefmt::skip]
const EVENING_END: &[&str] = &[
    "open main\n", "shut main\n", "bill-jam\n", "clear-tilt bill-jam\n", "cut sync 1 0\n", "cashout\n", "printed 1\n",
    "show meters\n",
];

/// The report of the evening.
#[rattlefmt::skip]
const EVENING: &[&str] = &[
    "ack bill 1 taken at 2", "ack bill 2 taken at 3", "ack player 1 taken at 4", "ack player 2 taken at 5",
    "ack player 3 taken at 6", "ack player 4 taken at 7", "ack player 5 taken at 8", "ack player 6 taken at 9",
    "ack player 7 taken at 10", "ack player 8 taken at 11", "ack player 9 taken at 12", "ack player 10 taken at 13",
    "ack player 11 taken at 14", "ack player 12 taken at 15", "ack player 13 taken at 16", "ack player 14 taken at 17",
    "ack player 15 taken at 18", "ack player 16 taken at 19", "ack player 17 taken at 20", "ack player 18 taken at 21",
    "ack player 19 taken at 22", "ack player 20 taken at 23", "ack player 21 taken at 24", "ack player 22 taken at 25",
    "ack player 23 taken at 26", "ack player 24 taken at 27", "ack player 25 taken at 28", "ack player 26 taken at 29",
    "ack player 27 taken at 30", "ack player 28 taken at 31", "ack player 29 taken at 32", "ack player 30 taken at 33",
    "ack player 31 taken at 34", "ack player 32 taken at 35", "ack player 33 taken at 36", "ack player 34 taken at 37",
    "ack player 35 taken at 38", "ack player 36 taken at 39", "ack player 37 taken at 40", "ack player 38 taken at 41",
    "ack player 39 taken at 42", "ack player 40 taken at 43", "ack player 41 taken at 44", "ack player 42 taken at 45",
    "ack player 43 taken at 46", "ack player 44 taken at 47", "ack player 45 taken at 48", "ack player 46 taken at 49",
    "ack player 47 taken at 50", "ack player 48 taken at 51", "ack player 49 taken at 52", "ack player 50 taken at 53",
    "ack player 51 taken at 54", "ack player 52 taken at 55", "ack player 53 taken at 56", "ack player 54 taken at 57",
    "ack player 55 taken at 58", "ack player 56 taken at 59", "ack player 57 taken at 60", "ack player 58 taken at 61",
    "ack player 59 taken at 62", "ack player 60 taken at 63", "ack player 61 taken at 64", "ack player 62 taken at 65",
    "ack player 63 taken at 66", "ack player 64 taken at 67", "ack player 65 taken at 68", "ack player 66 taken at 69",
    "ack player 67 taken at 70", "ack player 68 taken at 71", "ack player 69 taken at 72", "ack player 70 taken at 73",
    "ack player 71 taken at 74", "ack player 72 taken at 75", "ack player 73 taken at 76", "ack player 74 taken at 77",
    "ack player 75 taken at 78", "ack player 76 taken at 79", "ack player 77 taken at 80", "ack player 78 taken at 81",
    "ack player 79 taken at 82", "ack player 80 taken at 83", "ack doors 1 taken at 84", "ack doors 2 taken at 85",
    "ack bill 3 taken at 86", "ack attendant 1 taken at 87", "armed", "power 2: a sound 87, b sound 87", "start at 88",
    "ack player 81 taken at 89", "ack printer 1 taken at 90", "BillIn 0000003000", "CoinIn 0000000000",
    "VoucherIn 0000000000", "Wagered 0000001000", "Won 0000005000", "VoucherOut 0000007000", "CoinOut 0000000000",
    "HandWin 0000000000", "HandCancel 0000000000", "GamesPlayed 0000000040", "GamesWon 0000000020", "PowerUps 0000000002",
    "LogicOpen 0000000000", "MainOpen 0000000001", "CashboxOpen 0000000000", "DropOpen 0000000000", "end at 90 credit 0",
];

/// Two bills, twenty plays of each game, a door, a tilt, and a cash-out that is cut. The reels cost 900 cents. The poker costs
/// 100 and wins 20 times 250. 1,000 and the voucher of 7,000 are 3,000 and 5,000 cents.
#[test]
fn one_evening(rt: HostRuntime) -> Result<(), Fail> {
    let alloc = rt.alloc();
    let mut script = lines(alloc, &["bill 2000", "bill 1000"])?;
    for _ in 0..TIMES {
        push_words(&mut script, &["play reels 9\n"])?;
    }
    for _ in 0..TIMES {
        push_words(&mut script, &["play poker 1\nhold 11111\ntake\n"])?;
    }
    push_words(&mut script, EVENING_END)?;
    let wanted = report(alloc, EVENING)?;
    expect_whole(
        alloc,
        zeros(alloc),
        script,
        Status::Done,
        &wanted,
        Left::Sound(90),
    )
}
