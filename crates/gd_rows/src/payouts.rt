//! Money out through the whole program: orders of the printer and the hopper, and handpays.

use gd_runs::left::{Altered, Left, expect};
use gd_runs::runs::zeros;
use gd_top::Status;
use std::test::Fail;

/// Three coins of 79 are paid. What was not paid comes back: 1,900 and 75 are 1,975 cents.
#[rattlefmt::skip]
const HOPPER_RUNS_EMPTY: Altered = Altered {
    script: &[
        "voucher 1 1975", "cashout", "order", "coin-paid 1", "coin-paid 1", "coin-paid 1", "hopper-empty 1", "show state",
        "show meters",
    ],
    status: Status::Done,
    report: &[
        "ack reader 1 taken at 2", "ack player 1 taken at 3", "order 1 hopper 79 coins 1975", "ack hopper 1 taken at 4",
        "ack hopper 2 taken at 5", "ack hopper 3 taken at 6", "ack hopper 4 taken at 7", "credit 1900",
        "condition hopper-empty", "order none", "handpay none", "play none", "BillIn 0000000000", "CoinIn 0000000000",
        "VoucherIn 0000001975", "Wagered 0000000000", "Won 0000000000", "VoucherOut 0000000000", "CoinOut 0000000075",
        "HandWin 0000000000", "HandCancel 0000000000", "GamesPlayed 0000000000", "GamesWon 0000000000",
        "PowerUps 0000000001", "LogicOpen 0000000000", "MainOpen 0000000000", "CashboxOpen 0000000000",
        "DropOpen 0000000000", "end at 7 credit 1900",
    ],
    left: Left::Sound(7),
};

#[test]
fn hopper_runs_empty(rt: HostRuntime) -> Result<(), Fail> {
    expect(rt.alloc(), zeros(rt.alloc()), &HOPPER_RUNS_EMPTY)
}

/// More than a voucher may have is paid by the attendant.
#[rattlefmt::skip]
const CANCELLED_CREDIT_HANDPAY: Altered = Altered {
    script: &[
        "voucher 1 400000", "cashout", "show state", "handpay", "show meters",
    ],
    status: Status::Done,
    report: &[
        "ack reader 1 taken at 2", "ack player 1 taken at 3", "credit 0", "condition handpay", "order none",
        "handpay cancel 400000", "play none", "ack attendant 1 taken at 4", "BillIn 0000000000", "CoinIn 0000000000",
        "VoucherIn 0000400000", "Wagered 0000000000", "Won 0000000000", "VoucherOut 0000000000", "CoinOut 0000000000",
        "HandWin 0000000000", "HandCancel 0000400000", "GamesPlayed 0000000000", "GamesWon 0000000000",
        "PowerUps 0000000001", "LogicOpen 0000000000", "MainOpen 0000000000", "CashboxOpen 0000000000",
        "DropOpen 0000000000", "end at 4 credit 0",
    ],
    left: Left::Sound(4),
};

#[test]
fn cancelled_credit_handpay(rt: HostRuntime) -> Result<(), Fail> {
    expect(rt.alloc(), zeros(rt.alloc()), &CANCELLED_CREDIT_HANDPAY)
}

/// Orders that are named by their number and by `open`. Order 1 is open: money in, a play and a cash-out are refused, and so are
/// another number and another device. Paper may run out meanwhile. The print fails, and the balance is there again. Order 2 is
/// printed once, and its number, which is the id of the voucher, comes in again. Order 3 has four coins and stands through a
/// loss of power. Where none is open, `open` is the number 0, which no order has.
#[rattlefmt::skip]
const ORDERS_BY_NUMBER_AND_OPEN: Altered = Altered {
    script: &[
        "voucher 9 2500", "order", "cashout", "order", "bill 100", "voucher 10 5", "play reels 1", "cashout", "printed 2",
        "coin-paid 1", "coin-paid open", "paper-out", "order", "as 9 print-fail 1", "print-fail open", "order", "cashout",
        "clear-tilt paper-out", "cashout", "clear-tilt print-fail", "cashout", "printed 1", "again printer",
        "as 4 printed 2", "as 5 printed 2", "as 5 printed 2", "again printer", "printed open", "printed 0", "cashout",
        "voucher 2 100", "cashout", "order", "printed 3", "coin-paid open", "coin-paid 2", "coin-paid open", "coin-paid 3",
        "off", "on", "order", "as 6 hopper-empty 3", "as 7 coin-paid 3", "order", "hopper-empty 3", "coin-paid open",
        "again hopper", "show state", "show events", "show meters",
    ],
    status: Status::Done,
    report: &[
        "ack reader 1 taken at 2", "order none", "ack player 1 taken at 3", "order 1 printer 2500",
        "ack bill 1 refused 10 order-open at 4", "ack reader 2 refused 10 order-open at 5",
        "ack player 2 refused 10 order-open at 6", "ack player 3 refused 10 order-open at 7",
        "ack printer 1 refused 12 no-such-order at 8", "ack hopper 1 refused 12 no-such-order at 9",
        "ack hopper 2 refused 12 no-such-order at 10", "ack printer 2 taken at 11", "order 1 printer 2500",
        "step printer expected 3", "ack printer 3 taken at 12", "order none",
        "ack player 4 refused 1 locked-up paper-out at 13", "ack attendant 1 taken at 14",
        "ack player 5 refused 1 locked-up print-fail at 15", "ack attendant 2 taken at 16", "ack player 6 taken at 17",
        "ack printer 4 refused 12 no-such-order at 18", "again printer 4 refused 12 no-such-order at 18",
        "again printer 4 refused 12 no-such-order at 18", "ack printer 5 taken at 19", "again printer 5 taken at 19",
        "again printer 5 taken at 19", "ack printer 6 refused 12 no-such-order at 20",
        "ack printer 7 refused 12 no-such-order at 21", "ack player 7 refused 11 nothing-to-pay at 22",
        "ack reader 3 taken at 23", "ack player 8 taken at 24", "order 3 hopper 4 coins 100",
        "ack printer 8 refused 12 no-such-order at 25", "ack hopper 3 taken at 26",
        "ack hopper 4 refused 12 no-such-order at 27", "ack hopper 5 taken at 28", "ack hopper 6 taken at 29", "off",
        "power 2: a sound 29, b sound 29", "start at 30", "order 3 hopper 1 coins 25", "again hopper 6 taken at 30",
        "ack hopper 7 taken at 31", "order none", "ack hopper 8 refused 12 no-such-order at 32",
        "ack hopper 9 refused 12 no-such-order at 33", "again hopper 9 refused 12 no-such-order at 33", "credit 0",
        "condition none", "order none", "handpay none", "play none", "events 6", "30 start", "16 tilt-cleared print-fail",
        "14 tilt-cleared paper-out", "12 tilt-raised print-fail", "11 tilt-raised paper-out", "1 start", "bills 0",
        "vouchers 3", "23 in 2 100", "19 out 2 2500", "2 in 9 2500", "BillIn 0000000000", "CoinIn 0000000000",
        "VoucherIn 0000002600", "Wagered 0000000000", "Won 0000000000", "VoucherOut 0000002500", "CoinOut 0000000100",
        "HandWin 0000000000", "HandCancel 0000000000", "GamesPlayed 0000000000", "GamesWon 0000000000",
        "PowerUps 0000000002", "LogicOpen 0000000000", "MainOpen 0000000000", "CashboxOpen 0000000000",
        "DropOpen 0000000000", "end at 33 credit 0",
    ],
    left: Left::Sound(33),
};

#[test]
fn orders_by_number_and_open(rt: HostRuntime) -> Result<(), Fail> {
    expect(rt.alloc(), zeros(rt.alloc()), &ORDERS_BY_NUMBER_AND_OPEN)
}
