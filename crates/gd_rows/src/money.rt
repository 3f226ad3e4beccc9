//! Money in through the whole program, up to its limits, and repeats of each device.

use gd_runs::left::{Altered, Left, expect};
use gd_runs::runs::zeros;
use gd_top::Status;
use std::test::Fail;

/// A voucher up to the credit limit, one above it, one that was taken, and a bill that is no value of the setup.
#[rattlefmt::skip]
const VOUCHERS_AND_LIMITS: Altered = Altered {
    script: &[
        "voucher 7 1000000", "voucher 8 1", "voucher 7 5", "bill 300",
    ],
    status: Status::Done,
    report: &[
        "ack reader 1 taken at 2", "ack reader 2 refused 2 credit-limit at 3", "ack reader 3 refused 15 voucher-seen at 4",
        "ack bill 1 refused 3 value-not-enabled at 5", "end at 5 credit 1000000",
    ],
    left: Left::Sound(5),
};

#[test]
fn vouchers_and_limits(rt: HostRuntime) -> Result<(), Fail> {
    expect(rt.alloc(), zeros(rt.alloc()), &VOUCHERS_AND_LIMITS)
}

/// Each bill, a coin and a voucher up to the credit limit. A full stacker locks the machine up until it is cleared, each time
/// with an event of its own. The whole balance is too much for a voucher, so the attendant pays it by hand. A voucher that was
/// refused may come again; one that was taken may not. The last five of six bills are kept.
#[rattlefmt::skip]
const UP_TO_THE_CREDIT_LIMIT: Altered = Altered {
    script: &[
        "bill 100", "bill 500", "bill 1000", "bill 2000", "bill 5000", "bill 10000", "coin 25", "coin 50", "coin 0",
        "voucher 1 0", "voucher 5 981376", "voucher 5 981375", "coin 25", "bill 100", "voucher 18446744073709551615 1",
        "stacker-full", "bill 100", "bill 300", "stacker-full", "again bill", "clear-tilt stacker-full",
        "clear-tilt stacker-full", "cashout", "voucher 5 1", "show state", "handpay", "handpay", "voucher 5 1",
        "voucher 18446744073709551615 1", "show events", "show meters",
    ],
    status: Status::Done,
    report: &[
        "ack bill 1 taken at 2", "ack bill 2 taken at 3", "ack bill 3 taken at 4", "ack bill 4 taken at 5",
        "ack bill 5 taken at 6", "ack bill 6 taken at 7", "ack coin 1 taken at 8",
        "ack coin 2 refused 3 value-not-enabled at 9", "ack coin 3 refused 3 value-not-enabled at 10",
        "ack reader 1 refused 3 value-not-enabled at 11", "ack reader 2 refused 2 credit-limit at 12",
        "ack reader 3 taken at 13", "ack coin 4 refused 2 credit-limit at 14", "ack bill 7 refused 2 credit-limit at 15",
        "ack reader 4 refused 2 credit-limit at 16", "ack bill 8 taken at 17",
        "ack bill 9 refused 1 locked-up stacker-full at 18", "ack bill 10 refused 1 locked-up stacker-full at 19",
        "ack bill 11 taken at 20", "again bill 11 taken at 20", "ack attendant 1 taken at 21",
        "ack attendant 2 refused 13 no-such-tilt at 22", "ack player 1 taken at 23",
        "ack reader 5 refused 1 locked-up handpay at 24", "credit 0", "condition handpay", "order none",
        "handpay cancel 1000000", "play none", "ack attendant 3 taken at 25", "ack attendant 4 refused 14 no-handpay at 26",
        "ack reader 6 refused 15 voucher-seen at 27", "ack reader 7 taken at 28", "events 6", "25 handpay-done 1000000",
        "23 handpay-cancel 1000000", "21 tilt-cleared stacker-full", "20 tilt-raised stacker-full",
        "17 tilt-raised stacker-full", "1 start", "bills 5", "7 10000", "6 5000", "5 2000", "4 1000", "3 500", "vouchers 2",
        "28 in 18446744073709551615 1", "13 in 5 981375", "BillIn 0000018600", "CoinIn 0000000025", "VoucherIn 0000981376",
        "Wagered 0000000000", "Won 0000000000", "VoucherOut 0000000000", "CoinOut 0000000000", "HandWin 0000000000",
        "HandCancel 0001000000", "GamesPlayed 0000000000", "GamesWon 0000000000", "PowerUps 0000000001",
        "LogicOpen 0000000000", "MainOpen 0000000000", "CashboxOpen 0000000000", "DropOpen 0000000000",
        "end at 28 credit 1",
    ],
    left: Left::Sound(28),
};

#[test]
fn up_to_the_credit_limit(rt: HostRuntime) -> Result<(), Fail> {
    expect(rt.alloc(), zeros(rt.alloc()), &UP_TO_THE_CREDIT_LIMIT)
}

/// Each device repeats its last event, before and after a loss of power, and gets the kept reply. Behind `as` stand events of
/// doors and orders, new ones, repeats and one out of step.
#[rattlefmt::skip]
const AGAIN_OF_EACH_DEVICE: Altered = Altered {
    script: &[
        "bill 500", "coin 25", "voucher 3 100", "open main", "play reels 1", "shut main", "play reels 1", "paper-out",
        "coin-paid open", "clear-tilt paper-out", "again bill", "again coin", "again reader", "again printer",
        "again hopper", "again doors", "again player", "again attendant", "off", "on", "again attendant", "again player",
        "again doors", "again hopper", "again printer", "again reader", "again coin", "again bill", "as 3 shut main",
        "as 1 hopper-empty 7", "as 3 hopper-empty 7", "as 2 hopper-empty 18446744073709551615", "as 2 paper-out",
        "as 2 voucher 3 100",
    ],
    status: Status::Done,
    report: &[
        "ack bill 1 taken at 2", "ack coin 1 taken at 3", "ack reader 1 taken at 4", "ack doors 1 taken at 5",
        "ack player 1 refused 1 locked-up main-door at 6", "ack doors 2 taken at 7", "ack player 2 taken at 8",
        "ack printer 1 taken at 9", "ack hopper 1 refused 12 no-such-order at 10", "ack attendant 1 taken at 11",
        "again bill 1 taken at 11", "again coin 1 taken at 11", "again reader 1 taken at 11", "again printer 1 taken at 11",
        "again hopper 1 refused 12 no-such-order at 11", "again doors 2 taken at 11", "again player 2 taken at 11",
        "again attendant 1 taken at 11", "off", "power 2: a sound 11, b sound 11", "start at 12",
        "again attendant 1 taken at 12", "again player 2 taken at 12", "again doors 2 taken at 12",
        "again hopper 1 refused 12 no-such-order at 12", "again printer 1 taken at 12", "again reader 1 taken at 12",
        "again coin 1 taken at 12", "again bill 1 taken at 12", "ack doors 3 refused 16 door-already at 13",
        "again hopper 1 refused 12 no-such-order at 13", "step hopper expected 2",
        "ack hopper 2 refused 12 no-such-order at 14", "ack printer 2 taken at 15",
        "ack reader 2 refused 1 locked-up paper-out at 16", "end at 16 credit 620",
    ],
    left: Left::Sound(16),
};

#[test]
fn again_of_each_device(rt: HostRuntime) -> Result<(), Fail> {
    expect(rt.alloc(), zeros(rt.alloc()), &AGAIN_OF_EACH_DEVICE)
}
