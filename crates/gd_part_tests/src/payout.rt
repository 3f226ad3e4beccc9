//! What no clause of gd_account and gd_payout says: what is paid at each limit of the built-in setup, and what each call of an
//! account and of a payout leaves, in numbers that were worked out by hand.

ghost use Rattle.std.specs.Prelude.{◌≡◌};
ghost use Rattle.gd_base.specs.Histories.Credit.{order_amount};
ghost use Rattle.gd_base.specs.Histories.Meters.{handpay_amount};

use gd_account::{Account, AccountParts, Posted, shown};
use gd_base::{Handpay, Meter, Order, OrderKind, Refusal, Setup};
use gd_games::built_in;
use gd_payout::Payout;
use std::process::Abort;

// ================ machines

/// The parts of an account with these amounts, and no counts yet.
fn parts_of(balance: u64, amounts: [u64; 9]) -> AccountParts {
    AccountParts {
        balance,
        amounts,
        counts: [0; 7],
    }
}

/// What a player, a device or the attendant does; that of a device is to the order of a number.
#[derive(Clone, Copy, PartialEq, Eq, Debug)]
enum Deed {
    CashOut,
    Printed(u64),
    PrintFailed(u64),
    CoinPaid(u64),
    HopperEmpty(u64),
    HandpayDone,
}

/// An account, and what is paid out of it under a setup.
#[derive(Drop)]
struct Machine {
    setup: Setup,
    account: Account,
    payout: Payout,
}

/// Amounts and numbers below this one leave room for more.
const ROOM: u64 = 1 << 63;

impl Machine {
    /// A machine with this setup and balance, and nothing else yet.
    fn new(setup: Setup, balance: u64) -> Machine {
        Machine {
            setup,
            account: Account::from_parts(parts_of(balance, [0; 9])),
            payout: Payout::from_parts(0, None, None),
        }
    }

    /// Carries a deed out.
    fn carry_out(&mut self, rt: &impl Abort, deed: Deed) -> Result<(), Refusal> {
        let (setup, account, payout) = (&self.setup, &mut self.account, &mut self.payout);
        assert!(rt; account.balance() < ROOM);
        assert!(rt; payout.orders() < ROOM);
        assert!(rt; amount_of(payout.open_order()) < ROOM);
        assert!(rt; amount_by_hand(payout.open_handpay()) < ROOM);
        assert!(rt; account.meter(Meter::VoucherOut) < ROOM);
        assert!(rt; account.meter(Meter::CoinOut) < ROOM);
        assert!(rt; account.meter(Meter::HandWin) < ROOM);
        assert!(rt; account.meter(Meter::HandCancel) < ROOM);
        match deed {
            Deed::CashOut => payout.cash_out(setup, account),
            Deed::Printed(order) => payout.printed(setup, account, order),
            Deed::PrintFailed(order) => payout.print_failed(setup, account, order),
            Deed::CoinPaid(order) => payout.coin_paid(setup, account, order),
            Deed::HopperEmpty(order) => payout.hopper_empty(setup, account, order),
            Deed::HandpayDone => payout.handpay_done(account),
        }
    }

    /// A deed is done.
    fn does(&mut self, rt: &impl Abort, deed: Deed) {
        assert_eq!(rt; self.carry_out(rt, deed), Ok(()), "{deed:?}");
    }

    /// A deed is refused and changes nothing.
    fn refuses(&mut self, rt: &impl Abort, deed: Deed, wanted: Refusal) {
        let account = self.account.parts();
        let orders = self.payout.orders();
        let order = self.payout.open_order();
        let handpay = self.payout.open_handpay();
        assert_eq!(rt; self.carry_out(rt, deed), Err(wanted), "{deed:?}");
        assert_eq!(rt; self.account.parts(), account, "{deed:?}");
        assert_eq!(rt; self.payout.orders(), orders, "{deed:?}");
        assert_eq!(rt; self.payout.open_order(), order, "{deed:?}");
        assert_eq!(rt; self.payout.open_handpay(), handpay, "{deed:?}");
    }

    /// This order is open, and so much is on the balance.
    fn orders(&self, rt: &impl Abort, number: u64, kind: OrderKind, amount: u64, balance: u64) {
        let order = Order {
            number,
            kind,
            amount,
        };
        assert_eq!(rt; self.payout.open_order(), Some(order));
        assert_eq!(rt; self.account.balance(), balance);
    }

    /// Nothing is open, and the account is of these parts.
    fn rests(&self, rt: &impl Abort, parts: AccountParts) {
        assert_eq!(rt; self.payout.open_order(), None);
        assert_eq!(rt; self.payout.open_handpay(), None);
        assert_eq!(rt; self.account.parts(), parts);
    }
}

/// The cents of the open order, or 0 where none is open.
fn amount_of(order: Option<Order>) -> u64
    ensures { result ≡ order_amount order }
{
    match order {
        None => 0,
        Some(open) => open.amount,
    }
}

/// The cents of the open handpay, or 0 where none is open.
fn amount_by_hand(handpay: Option<Handpay>) -> u64
    ensures { result ≡ handpay_amount handpay }
{
    match handpay {
        None => 0,
        Some(open) => open.amount,
    }
}

// ================ cash-outs

/// Balances, the device that pays, the cents of its order, and what stays on the balance.
#[rattlefmt::skip]
const CASH_OUTS: [(u64, OrderKind, u64, u64); 6] = [
    (24, OrderKind::Printer, 24, 0),
    (25, OrderKind::Hopper, 25, 0),
    (49, OrderKind::Hopper, 25, 24),
    (1999, OrderKind::Hopper, 1975, 24),
    (2000, OrderKind::Printer, 2000, 0),
    (300_000, OrderKind::Printer, 300_000, 0),
];

#[test]
fn each_balance_is_paid_by_its_device(rt: HostRuntime) {
    for (balance, kind, amount, stays) in CASH_OUTS {
        let mut machine = Machine::new(built_in(), balance);
        machine.does(&rt, Deed::CashOut);
        machine.orders(&rt, 1, kind, amount, stays);
        assert_eq!(rt; machine.payout.open_handpay(), None, "{balance}");
        machine.refuses(&rt, Deed::CashOut, Refusal::OrderOpen);
    }
    let mut machine = Machine::new(built_in(), 0);
    machine.refuses(&rt, Deed::CashOut, Refusal::NothingToPay);
    machine.rests(&rt, parts_of(0, [0; 9]));
    // With no hopper it is printed.
    let mut setup = built_in();
    setup.hopper = false;
    let mut machine = Machine::new(setup, 1975);
    machine.does(&rt, Deed::CashOut);
    machine.orders(&rt, 1, OrderKind::Printer, 1975, 0);
}

#[test]
fn above_the_voucher_limit_credit_is_cancelled(rt: HostRuntime) {
    let mut machine = Machine::new(built_in(), 300_001);
    machine.does(&rt, Deed::CashOut);
    let handpay = Handpay {
        win: false,
        amount: 300_001,
    };
    assert_eq!(rt; machine.payout.open_handpay(), Some(handpay));
    assert_eq!(rt; machine.payout.open_order(), None);
    assert_eq!(rt; machine.payout.orders(), 0);
    assert_eq!(rt; machine.account.balance(), 0);
    let mut machine = Machine::new(built_in(), 400_000);
    machine.does(&rt, Deed::CashOut);
    machine.does(&rt, Deed::HandpayDone);
    machine.rests(&rt, parts_of(0, [0, 0, 0, 0, 0, 0, 0, 0, 400_000]));
    machine.refuses(&rt, Deed::HandpayDone, Refusal::NoHandpay);
}

// ================ orders

#[test]
fn an_order_is_printed_once(rt: HostRuntime) {
    let mut machine = Machine::new(built_in(), 2000);
    machine.refuses(&rt, Deed::Printed(1), Refusal::NoSuchOrder);
    machine.does(&rt, Deed::CashOut);
    for number in [0, 2] {
        machine.refuses(&rt, Deed::Printed(number), Refusal::NoSuchOrder);
        machine.refuses(&rt, Deed::PrintFailed(number), Refusal::NoSuchOrder);
    }
    // What is the hopper's isn't the printer's.
    machine.refuses(&rt, Deed::CoinPaid(1), Refusal::NoSuchOrder);
    machine.refuses(&rt, Deed::HopperEmpty(1), Refusal::NoSuchOrder);
    machine.does(&rt, Deed::PrintFailed(1));
    machine.rests(&rt, parts_of(2000, [0; 9]));
    // Orders count up.
    machine.does(&rt, Deed::CashOut);
    machine.orders(&rt, 2, OrderKind::Printer, 2000, 0);
    machine.refuses(&rt, Deed::Printed(1), Refusal::NoSuchOrder);
    machine.does(&rt, Deed::Printed(2));
    machine.rests(&rt, parts_of(0, [0, 0, 0, 0, 0, 2000, 0, 0, 0]));
    machine.refuses(&rt, Deed::Printed(2), Refusal::NoSuchOrder);
    assert_eq!(rt; machine.payout.orders(), 2);
}

#[test]
fn hopper_runs_empty(rt: HostRuntime) {
    let mut machine = Machine::new(built_in(), 1975);
    machine.does(&rt, Deed::CashOut);
    for remains in [1950, 1925, 1900] {
        machine.does(&rt, Deed::CoinPaid(1));
        machine.orders(&rt, 1, OrderKind::Hopper, remains, 0);
    }
    machine.refuses(&rt, Deed::CoinPaid(2), Refusal::NoSuchOrder);
    machine.refuses(&rt, Deed::HopperEmpty(2), Refusal::NoSuchOrder);
    // What is the printer's isn't the hopper's.
    machine.refuses(&rt, Deed::Printed(1), Refusal::NoSuchOrder);
    machine.refuses(&rt, Deed::PrintFailed(1), Refusal::NoSuchOrder);
    machine.does(&rt, Deed::HopperEmpty(1));
    machine.rests(&rt, parts_of(1900, [0, 0, 0, 0, 0, 0, 75, 0, 0]));
    // The last coin closes an order.
    let mut machine = Machine::new(built_in(), 25);
    machine.does(&rt, Deed::CashOut);
    machine.does(&rt, Deed::CoinPaid(1));
    machine.rests(&rt, parts_of(0, [0, 0, 0, 0, 0, 0, 25, 0, 0]));
    machine.refuses(&rt, Deed::CoinPaid(1), Refusal::NoSuchOrder);
}

// ================ wins and wagers

/// Posts a win.
fn post(rt: &impl Abort, machine: &mut Machine, win: u64) -> Posted {
    assert!(rt; win < ROOM);
    assert!(rt; machine.account.balance() < ROOM);
    assert!(rt; machine.account.meter(Meter::Won) < ROOM);
    assert!(rt; machine.account.meter(Meter::GamesWon) < ROOM);
    machine.account.post_win(&machine.setup, win)
}

/// The parts of an account with these amounts, so many plays and so many wins.
fn played(balance: u64, amounts: [u64; 9], plays: u64, wins: u64) -> AccountParts {
    AccountParts {
        balance,
        amounts,
        counts: [plays, wins, 0, 0, 0, 0, 0],
    }
}

#[test]
fn a_win_at_the_handpay_limit_is_held(rt: HostRuntime) {
    let mut machine = Machine::new(built_in(), 0);
    assert_eq!(rt; post(&rt, &mut machine, 0), Posted::Nothing);
    machine.rests(&rt, parts_of(0, [0; 9]));
    assert_eq!(rt; post(&rt, &mut machine, 119_999), Posted::Credited);
    machine.rests(
        &rt,
        played(119_999, [0, 0, 0, 0, 119_999, 0, 0, 0, 0], 0, 1),
    );
    let mut machine = Machine::new(built_in(), 0);
    assert_eq!(rt; post(&rt, &mut machine, 120_000), Posted::Held);
    machine.rests(&rt, played(0, [0, 0, 0, 0, 120_000, 0, 0, 0, 0], 0, 1));
    machine.payout.hold_win(120_000);
    let handpay = Handpay {
        win: true,
        amount: 120_000,
    };
    assert_eq!(rt; machine.payout.open_handpay(), Some(handpay));
    machine.does(&rt, Deed::HandpayDone);
    machine.rests(
        &rt,
        played(0, [0, 0, 0, 0, 120_000, 0, 0, 120_000, 0], 0, 1),
    );
}

#[test]
fn a_wager_is_at_most_the_balance(rt: HostRuntime) {
    let mut account = Account::from_parts(parts_of(45, [0; 9]));
    for (cents, wanted) in [(46, Err(Refusal::NoCredit)), (45, Ok(()))] {
        assert_eq!(rt; account.parts(), parts_of(45, [0; 9]), "{cents}");
        assert!(rt; account.meter(Meter::Wagered) < ROOM);
        assert!(rt; account.meter(Meter::GamesPlayed) < ROOM);
        assert_eq!(rt; account.wager(cents), wanted, "{cents}");
    }
    assert_eq!(rt;
        account.parts(),
        played(0, [0, 0, 0, 45, 0, 0, 0, 0, 0], 1, 0)
    );
}

// ================ money in

/// Takes a bill, a coin, or else a voucher in, by its meter.
fn take(
    rt: &impl Abort,
    setup: &Setup,
    account: &mut Account,
    meter: Meter,
    value: u32,
) -> Result<(), Refusal> {
    assert!(rt; account.balance() < ROOM);
    assert!(rt; account.meter(Meter::BillIn) < ROOM);
    assert!(rt; account.meter(Meter::CoinIn) < ROOM);
    assert!(rt; account.meter(Meter::VoucherIn) < ROOM);
    match meter {
        Meter::BillIn => account.take_bill(setup, value),
        Meter::CoinIn => account.take_coin(setup, value),
        _ => account.take_voucher(setup, value),
    }
}

/// Balances, what comes in and how much of it, and why it is refused.
#[rattlefmt::skip]
const INCOMES: [(u64, Meter, u32, Option<Refusal>); 9] = [
    (0, Meter::CoinIn, 25, None),
    (0, Meter::CoinIn, 24, Some(Refusal::ValueNotEnabled)),
    (999_900, Meter::BillIn, 100, None),
    (999_901, Meter::BillIn, 100, Some(Refusal::CreditLimit)),
    (0, Meter::BillIn, 0, Some(Refusal::ValueNotEnabled)),
    (999_999, Meter::VoucherIn, 1, None),
    (1_000_000, Meter::VoucherIn, 1, Some(Refusal::CreditLimit)),
    (0, Meter::VoucherIn, 100_000_000, Some(Refusal::CreditLimit)),
    (0, Meter::VoucherIn, 100_000_001, Some(Refusal::ValueNotEnabled)),
];

/// Vouchers under the highest credit limit, and whether they are of a value that is taken.
#[rattlefmt::skip]
const VOUCHERS: [(u32, bool); 4] = [(0, false), (1, true), (100_000_000, true), (100_000_001, false)];

#[test]
fn money_is_taken_up_to_the_credit_limit(rt: HostRuntime) {
    let setup = built_in();
    for (balance, meter, value, why) in INCOMES {
        let mut account = Account::from_parts(parts_of(balance, [0; 9]));
        let answer = take(&rt, &setup, &mut account, meter, value);
        assert_eq!(rt; answer.err(), why, "{meter:?} {value}");
        let taken = if why.is_none() { u64::from(value) } else { 0 };
        assert_eq!(rt; account.meter(meter), taken, "{meter:?} {value}");
        assert_eq!(rt;
            account.balance().checked_sub(taken),
            Some(balance),
            "{meter:?} {value}"
        );
    }
    let mut setup = built_in();
    setup.credit_limit = 100_000_000;
    for (value, is_taken) in VOUCHERS {
        let mut account = Account::from_parts(parts_of(0, [0; 9]));
        let answer = take(&rt, &setup, &mut account, Meter::VoucherIn, value);
        let cents = u64::from(value);
        if is_taken {
            assert_eq!(rt; answer, Ok(()), "{value}");
            assert_eq!(rt;
                account.parts(),
                parts_of(cents, [0, 0, cents, 0, 0, 0, 0, 0, 0])
            );
        } else {
            assert_eq!(rt; answer, Err(Refusal::ValueNotEnabled), "{value}");
            assert_eq!(rt; account.parts(), parts_of(0, [0; 9]));
        }
    }
}

#[test]
fn meter_rolls_over_in_what_is_shown(rt: HostRuntime) {
    let mut setup = built_in();
    setup.bills = [1, 500, 1000, 2000, 5000, 10_000, 0, 0];
    let full = 9_999_999_999;
    assert_eq!(rt; shown(full), full);
    let mut account = Account::from_parts(parts_of(0, [full, 0, 0, 0, 0, full, 0, 0, 0]));
    assert_eq!(rt; take(&rt, &setup, &mut account, Meter::BillIn, 1), Ok(()));
    assert_eq!(rt; account.meter(Meter::BillIn), 10_000_000_000);
    assert_eq!(rt; shown(account.meter(Meter::BillIn)), 0);
    assert_eq!(rt; account.meter(Meter::VoucherOut), full);
    assert_eq!(rt; account.balance(), 1);
}
