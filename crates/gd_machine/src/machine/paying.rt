//! Money that is paid out: cash-outs, orders and handpays.

ghost use Rattle.std.specs.Prelude.{◌≡◌, OnErr, OnOk, None};
ghost use Rattle.gd_base.specs.declared.event.Event.{Event};
ghost use Rattle.gd_base.specs.Histories.Credit.{order_amount};
ghost use Rattle.gd_base.specs.Histories.Meters.{handpay_amount};
ghost use Rattle.gd_base.specs.Judging.Rule.{rule};
ghost use Rattle.gd_machine.specs.Acts.{acted, replied};
ghost use Rattle.gd_machine.specs.Words.{machine_setup, machine_view, IsWhole};

use super::Machine;
use super::noting::{CREDIT_CANCELLED, HANDPAY_PAID, PRINTED_OUT};
use gd_base::{Handpay, Order, Refusal, Tilt, VoucherRecord};

/// What remains of the open order in cents, and 0 where none is open.
fn ordered(order: Option<Order>) -> u64
    ensures { result ≡ order_amount order }
{
    match order {
        None => 0,
        Some(order) => order.amount,
    }
}

/// The cents of the open handpay, and 0 where none is open.
fn held(handpay: Option<Handpay>) -> u64
    ensures { result ≡ handpay_amount handpay }
{
    match handpay {
        None => 0,
        Some(handpay) => handpay.amount,
    }
}

impl Machine {
    /// Pays the balance out, or refuses to.
    pub(super) fn cash_out(&mut self) -> Result<(), Refusal>
        requires whole { IsWhole (machine_setup self.old) (machine_view self.old) }
        ensures answer { replied result ≡ rule (machine_setup self.old) (machine_view self.old) Event.CashOut }
        ensures view { OnOk result (machine_view self.new ≡
            acted (machine_setup self.old) (machine_view self.old) Event.CashOut None) }
        ensures stays { OnErr result (machine_view self.new ≡ machine_view self.old) }
        ensures setup { machine_setup self.new ≡ machine_setup self.old }
    {
        self.check_free()?;
        if self.plays.open().is_some() {
            return Err(Refusal::PlayOpen);
        }
        self.payout.cash_out(&self.setup, &mut self.account)?;
        if let Some(handpay) = self.payout.open_handpay() {
            self.note_event(CREDIT_CANCELLED, handpay.amount);
        }
        Ok(())
    }

    /// The voucher of an order was printed.
    pub(super) fn print(&mut self, order: u64) -> Result<(), Refusal>
        requires whole { IsWhole (machine_setup self.old) (machine_view self.old) }
        ensures answer { replied result ≡ rule (machine_setup self.old) (machine_view self.old) (Event.Printed order) }
        ensures view { OnOk result (machine_view self.new ≡
            acted (machine_setup self.old) (machine_view self.old) (Event.Printed order) None) }
        ensures stays { OnErr result (machine_view self.new ≡ machine_view self.old) }
        ensures setup { machine_setup self.new ≡ machine_setup self.old }
    {
        let amount = ordered(self.payout.open_order());
        self.payout.printed(&self.setup, &mut self.account, order)?;
        self.recall.note_voucher(&VoucherRecord {
            place: self.count + 1,
            kind: PRINTED_OUT,
            id: order,
            value: amount as u32,
        });
        Ok(())
    }

    /// The voucher of an order wasn't printed.
    pub(super) fn fail_print(&mut self, order: u64) -> Result<(), Refusal>
        requires whole { IsWhole (machine_setup self.old) (machine_view self.old) }
        ensures answer { replied result ≡ rule (machine_setup self.old) (machine_view self.old) (Event.PrintFail order) }
        ensures view { OnOk result (machine_view self.new ≡
            acted (machine_setup self.old) (machine_view self.old) (Event.PrintFail order) None) }
        ensures stays { OnErr result (machine_view self.new ≡ machine_view self.old) }
        ensures setup { machine_setup self.new ≡ machine_setup self.old }
    {
        self.payout
            .print_failed(&self.setup, &mut self.account, order)?;
        self.raise(Tilt::PrintFail);
        Ok(())
    }

    /// A coin of an order was paid.
    pub(super) fn pay_coin(&mut self, order: u64) -> Result<(), Refusal>
        requires whole { IsWhole (machine_setup self.old) (machine_view self.old) }
        ensures answer { replied result ≡ rule (machine_setup self.old) (machine_view self.old) (Event.CoinPaid order) }
        ensures view { OnOk result (machine_view self.new ≡
            acted (machine_setup self.old) (machine_view self.old) (Event.CoinPaid order) None) }
        ensures stays { OnErr result (machine_view self.new ≡ machine_view self.old) }
        ensures setup { machine_setup self.new ≡ machine_setup self.old }
    {
        self.payout.coin_paid(&self.setup, &mut self.account, order)
    }

    /// The hopper ran empty at an order.
    pub(super) fn empty_hopper(&mut self, order: u64) -> Result<(), Refusal>
        requires whole { IsWhole (machine_setup self.old) (machine_view self.old) }
        ensures answer { replied result ≡ rule (machine_setup self.old) (machine_view self.old) (Event.HopperEmpty order) }
        ensures view { OnOk result (machine_view self.new ≡
            acted (machine_setup self.old) (machine_view self.old) (Event.HopperEmpty order) None) }
        ensures stays { OnErr result (machine_view self.new ≡ machine_view self.old) }
        ensures setup { machine_setup self.new ≡ machine_setup self.old }
    {
        self.payout
            .hopper_empty(&self.setup, &mut self.account, order)?;
        self.raise(Tilt::HopperEmpty);
        Ok(())
    }

    /// The attendant paid the open handpay.
    pub(super) fn end_handpay(&mut self) -> Result<(), Refusal>
        requires whole { IsWhole (machine_setup self.old) (machine_view self.old) }
        ensures answer { replied result ≡ rule (machine_setup self.old) (machine_view self.old) Event.HandpayDone }
        ensures view { OnOk result (machine_view self.new ≡
            acted (machine_setup self.old) (machine_view self.old) Event.HandpayDone None) }
        ensures stays { OnErr result (machine_view self.new ≡ machine_view self.old) }
        ensures setup { machine_setup self.new ≡ machine_setup self.old }
    {
        let amount = held(self.payout.open_handpay());
        self.payout.handpay_done(&mut self.account)?;
        self.note_event(HANDPAY_PAID, amount);
        Ok(())
    }
}
