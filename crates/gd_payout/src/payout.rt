//! What is to be paid out.

ghost use Rattle.std.specs.Prelude.{◌≡◌, ◌<◌, ◌+◌, ◌-◌, ◌*◌, ◌/◌, ◌^◌, Some, None, true, OnOk, OnErr};
ghost use Rattle.gd_base.specs.declared.meter.Meter.{Meter as MeterData};
ghost use Rattle.gd_base.specs.declared.payout.OrderKind.{OrderKind as KindData};
ghost use Rattle.gd_base.specs.Histories.Credit.{payment, amount_of as amount_of_payment, order_amount};
ghost use Rattle.gd_base.specs.Histories.Meters.{with_additions, handpay_addition, handpay_amount};
ghost use Rattle.gd_account.specs.Judging.{outcome};
ghost use Rattle.gd_account.specs.Money.{with_amount, HasRoomAt};
ghost use Rattle.gd_payout.specs.Payouts.{cash_refusal, order_refusal, handpay_refusal};
ghost use Rattle.gd_payout.specs.Payouts.{with_cash_out, without_order, with_coin_paid, with_held_win, without_handpay};

use crate::open_order::{after_coin, amount_of, is_order};
use gd_account::Account;
use gd_base::{Handpay, Meter, Order, OrderKind, Refusal, Setup};
use std::marker::Model;

/// The number of orders so far, the open order and the open handpay. A contract sees these three.
#[derive(Drop)]
pub struct Payout {
    orders: u64,
    order: Option<Order>,
    handpay: Option<Handpay>,
}

impl Model for Payout {
    ghost use Rattle.gd_payout.specs.Payouts.{Payouts};

    ghost Value = { Payouts };

    ghost view = { λ p. record { orders = p.orders; order = p.order; handpay = p.handpay } };
}

impl Payout {
    /// So many orders so far, and what is open.
    pub fn from_parts(orders: u64, order: Option<Order>, handpay: Option<Handpay>) -> Payout
        ensures { result ≡ record { orders = orders; order = order; handpay = handpay } }
    {
        Payout {
            orders,
            order,
            handpay,
        }
    }

    /// The open order, with the cents that remain to be paid.
    pub fn open_order(&self) -> Option<Order>
        ensures { result ≡ self.now.order }
    {
        self.order
    }

    /// The open handpay.
    pub fn open_handpay(&self) -> Option<Handpay>
        ensures { result ≡ self.now.handpay }
    {
        self.handpay
    }

    /// How many orders so far. The latest has this number.
    pub fn orders(&self) -> u64
        ensures { result ≡ self.now.orders }
    {
        self.orders
    }

    /// Pays the balance out. Where there is a hopper, and the balance is at least a coin and below the hopper's limit,
    /// it opens an order over whole coins, and what is less than a coin stays on the balance. Else it is an order to
    /// the printer over the whole balance up to the voucher limit, and above that a handpay of cancelled credit. It is
    /// refused with OrderOpen while an order is open, and else with NothingToPay where the balance is 0; then nothing
    /// changes. docs/DEFINITIONS.md has the rule.
    pub fn cash_out(&mut self, setup: &Setup, account: &mut Account) -> Result<(), Refusal>
        requires orders { self.old.orders < 2 ^ 63 }
        ensures answer { result ≡ outcome (cash_refusal self.old.order account.old.balance) }
        ensures payout { OnOk result (self.new ≡ with_cash_out setup.now account.old.balance self.old) }
        ensures account { OnOk result (account.new ≡ record account.old {
          balance = account.old.balance - amount_of_payment (payment setup.now account.old.balance);
        }) }
        ensures stays { OnErr result ((self.new ≡ self.old) × (account.new ≡ account.old)) }
    {
        if self.order.is_some() {
            return Err(Refusal::OrderOpen);
        }
        let balance = account.balance();
        if balance == 0 {
            return Err(Refusal::NothingToPay);
        }
        let coin = u64::from(setup.coin);
        if setup.hopper && coin <= balance && balance < u64::from(setup.hopper_limit) {
            let amount = balance / coin * coin;
            account.debit(amount);
            self.begin_order(OrderKind::Hopper, amount);
        } else if balance <= u64::from(setup.voucher_limit) {
            account.debit(balance);
            self.begin_order(OrderKind::Printer, balance);
        } else {
            account.debit(balance);
            self.order = None;
            self.handpay = Some(Handpay {
                win: false,
                amount: balance,
            });
        }
        Ok(())
    }

    /// The voucher of the open order was printed: its amount is counted as VoucherOut, and the order is closed. It is
    /// refused with NoSuchOrder unless an order to the printer of this number is open; then nothing changes.
    /// docs/DEFINITIONS.md has the rule of each event.
    pub fn printed(
        &mut self,
        _setup: &Setup,
        account: &mut Account,
        order: u64,
    ) -> Result<(), Refusal>
        requires total { HasRoomAt MeterData.VoucherOut account.old }
        requires amount { order_amount self.old.order < 2 ^ 63 }
        ensures answer { result ≡ outcome (order_refusal KindData.Printer order self.old.order) }
        ensures payout { OnOk result (self.new ≡ without_order self.old) }
        ensures account { OnOk result (account.new ≡
            with_amount MeterData.VoucherOut (order_amount self.old.order) account.old) }
        ensures stays { OnErr result ((self.new ≡ self.old) × (account.new ≡ account.old)) }
    {
        if !is_order(OrderKind::Printer, order, self.order) {
            return Err(Refusal::NoSuchOrder);
        }
        account.add(Meter::VoucherOut, amount_of(self.order));
        self.order = None;
        Ok(())
    }

    /// The voucher of the open order wasn't printed: its amount is on the balance again, and the order is closed. It
    /// is refused with NoSuchOrder unless an order to the printer of this number is open; then nothing changes. The
    /// tilt is the caller's.
    pub fn print_failed(
        &mut self,
        _setup: &Setup,
        account: &mut Account,
        order: u64,
    ) -> Result<(), Refusal>
        requires balance { account.old.balance < 2 ^ 63 }
        requires amount { order_amount self.old.order < 2 ^ 63 }
        ensures answer { result ≡ outcome (order_refusal KindData.Printer order self.old.order) }
        ensures payout { OnOk result (self.new ≡ without_order self.old) }
        ensures account { OnOk result (account.new ≡ record account.old {
          balance = account.old.balance + order_amount self.old.order;
        }) }
        ensures stays { OnErr result ((self.new ≡ self.old) × (account.new ≡ account.old)) }
    {
        self.give_back(OrderKind::Printer, account, order)
    }

    /// A coin of the open order was paid: it is counted as CoinOut and taken off the order, which is closed where
    /// nothing remains. It is refused with NoSuchOrder unless an order to the hopper of this number is open; then
    /// nothing changes.
    pub fn coin_paid(
        &mut self,
        setup: &Setup,
        account: &mut Account,
        order: u64,
    ) -> Result<(), Refusal>
        requires total { HasRoomAt MeterData.CoinOut account.old }
        ensures answer { result ≡ outcome (order_refusal KindData.Hopper order self.old.order) }
        ensures payout { OnOk result (self.new ≡ with_coin_paid setup.now.coin self.old) }
        ensures account { OnOk result (account.new ≡ with_amount MeterData.CoinOut setup.now.coin account.old) }
        ensures stays { OnErr result ((self.new ≡ self.old) × (account.new ≡ account.old)) }
    {
        if !is_order(OrderKind::Hopper, order, self.order) {
            return Err(Refusal::NoSuchOrder);
        }
        account.add(Meter::CoinOut, u64::from(setup.coin));
        self.order = after_coin(setup.coin, self.order);
        Ok(())
    }

    /// The hopper has no coins for the open order: what remains of it is on the balance again, and the order is
    /// closed. It is refused with NoSuchOrder unless an order to the hopper of this number is open; then nothing
    /// changes. The tilt is the caller's.
    pub fn hopper_empty(
        &mut self,
        _setup: &Setup,
        account: &mut Account,
        order: u64,
    ) -> Result<(), Refusal>
        requires balance { account.old.balance < 2 ^ 63 }
        requires amount { order_amount self.old.order < 2 ^ 63 }
        ensures answer { result ≡ outcome (order_refusal KindData.Hopper order self.old.order) }
        ensures payout { OnOk result (self.new ≡ without_order self.old) }
        ensures account { OnOk result (account.new ≡ record account.old {
          balance = account.old.balance + order_amount self.old.order;
        }) }
        ensures stays { OnErr result ((self.new ≡ self.old) × (account.new ≡ account.old)) }
    {
        self.give_back(OrderKind::Hopper, account, order)
    }

    /// Opens a handpay over a win of so many cents, which `Account::post_win` held.
    pub fn hold_win(&mut self, cents: u64)
        ensures { self.new ≡ with_held_win cents self.old }
    {
        self.handpay = Some(Handpay {
            win: true,
            amount: cents,
        });
    }

    /// The attendant paid the open handpay: it is counted as HandWin or HandCancel, by its kind, and closed. It is
    /// refused with NoHandpay where none is open; then nothing changes.
    pub fn handpay_done(&mut self, account: &mut Account) -> Result<(), Refusal>
        requires win { HasRoomAt MeterData.HandWin account.old }
        requires cancel { HasRoomAt MeterData.HandCancel account.old }
        requires amount { handpay_amount self.old.handpay < 2 ^ 63 }
        ensures answer { result ≡ outcome (handpay_refusal self.old.handpay) }
        ensures payout { OnOk result (self.new ≡ without_handpay self.old) }
        ensures account { OnOk result (account.new ≡ record account.old {
          totals = with_additions (handpay_addition self.old.handpay) account.old.totals;
        }) }
        ensures stays { OnErr result ((self.new ≡ self.old) × (account.new ≡ account.old)) }
    {
        let Some(handpay) = self.handpay else {
            return Err(Refusal::NoHandpay);
        };
        if handpay.win {
            account.add(Meter::HandWin, handpay.amount);
        } else {
            account.add(Meter::HandCancel, handpay.amount);
        }
        self.handpay = None;
        Ok(())
    }

    /// Opens the next order.
    fn begin_order(&mut self, kind: OrderKind, amount: u64)
        requires { self.old.orders < 2 ^ 63 }
        ensures { self.new ≡ record self.old {
          orders = self.old.orders + 1;
          order = Some (record { number = self.old.orders + 1; kind = kind; amount = amount });
        } }
    {
        self.orders += 1;
        self.order = Some(Order {
            number: self.orders,
            kind,
            amount,
        });
    }

    /// Puts what remains of the open order back on the balance, where the order has this kind and this number.
    fn give_back(
        &mut self,
        kind: OrderKind,
        account: &mut Account,
        order: u64,
    ) -> Result<(), Refusal>
        requires balance { account.old.balance < 2 ^ 63 }
        requires amount { order_amount self.old.order < 2 ^ 63 }
        ensures answer { result ≡ outcome (order_refusal kind order self.old.order) }
        ensures payout { OnOk result (self.new ≡ without_order self.old) }
        ensures account { OnOk result (account.new ≡ record account.old {
          balance = account.old.balance + order_amount self.old.order;
        }) }
        ensures stays { OnErr result ((self.new ≡ self.old) × (account.new ≡ account.old)) }
    {
        if !is_order(kind, order, self.order) {
            return Err(Refusal::NoSuchOrder);
        }
        account.credit(amount_of(self.order));
        self.order = None;
        Ok(())
    }
}
