//! The account of a machine.

ghost use Rattle.std.specs.Prelude.{◌≡◌, ◌<◌, ◌≤◌, ◌+◌, ◌-◌, ◌^◌, ◌++◌, ◌==◌, slice_index, OnOk, OnErr};
ghost use Rattle.gd_base.specs.declared.meter.Meter.{Meter as MeterData};
ghost use Rattle.gd_base.specs.Histories.Numbers.{meter_place};
ghost use Rattle.gd_base.specs.Judging.Rule.{is_bill};
ghost use Rattle.gd_account.specs.Judging.{outcome, income_refusal, is_voucher_value, wager_refusal, posting};
ghost use Rattle.gd_account.specs.Money.{with_amount, with_income, with_wager, with_win, HasRoomAt};

use crate::parts::AccountParts;
use crate::posted::Posted;
use crate::totals::{add, parts_of, totals_of};
use gd_base::{MOST_AMOUNT, Meter, Refusal, Setup};
use std::marker::Model;

/// The balance in cents and the whole totals of the meters. A contract sees a balance and a list of sixteen totals, in
/// the order of the meters.
#[derive(Drop)]
pub struct Account {
    balance: u64,
    totals: [u64; 16],
}

impl Model for Account {
    ghost use Rattle.gd_account.specs.Money.{Money};

    ghost Value = { Money };

    ghost view = { λ a. record { balance = a.balance; totals = a.totals } };
}

impl Account {
    /// An account of these parts.
    pub fn from_parts(parts: AccountParts) -> Account
        ensures { result ≡ record { balance = parts.balance; totals = parts.amounts ++ parts.counts } }
    {
        Account {
            balance: parts.balance,
            totals: totals_of(&parts.amounts, &parts.counts),
        }
    }

    /// The parts of the account.
    pub fn parts(&self) -> AccountParts
        ensures balance { result.balance ≡ self.now.balance }
        ensures totals { result.amounts ++ result.counts ≡ self.now.totals }
    {
        let (amounts, counts) = parts_of(&self.totals);
        AccountParts {
            balance: self.balance,
            amounts,
            counts,
        }
    }

    /// Takes a bill of `value` cents in. It is refused with ValueNotEnabled where the value is none of the setup's
    /// bills, and else with CreditLimit where the balance would pass the credit limit; then nothing changes.
    /// docs/DEFINITIONS.md has the rule.
    pub fn take_bill(&mut self, setup: &Setup, value: u32) -> Result<(), Refusal>
        requires balance { self.old.balance < 2 ^ 63 }
        requires total { HasRoomAt MeterData.BillIn self.old }
        ensures answer { result ≡
            outcome (income_refusal (is_bill setup.now value) setup.now.credit_limit self.old.balance value) }
        ensures money { OnOk result (self.new ≡ with_income MeterData.BillIn value self.old) }
        ensures stays { OnErr result (self.new ≡ self.old) }
    {
        self.take_in(setup, is_enabled_bill(setup, value), Meter::BillIn, value)
    }

    /// Takes a coin of `value` cents in. It is refused with ValueNotEnabled where the value isn't that of the setup's
    /// coin, and else with CreditLimit where the balance would pass the credit limit; then nothing changes.
    pub fn take_coin(&mut self, setup: &Setup, value: u32) -> Result<(), Refusal>
        requires balance { self.old.balance < 2 ^ 63 }
        requires total { HasRoomAt MeterData.CoinIn self.old }
        ensures answer { result ≡
            outcome (income_refusal (value == setup.now.coin) setup.now.credit_limit self.old.balance value) }
        ensures money { OnOk result (self.new ≡ with_income MeterData.CoinIn value self.old) }
        ensures stays { OnErr result (self.new ≡ self.old) }
    {
        self.take_in(setup, value == setup.coin, Meter::CoinIn, value)
    }

    /// Takes a voucher of `value` cents in. It is refused with ValueNotEnabled where the value is 0 or above
    /// 100,000,000, and else with CreditLimit where the balance would pass the credit limit; then nothing changes.
    /// Whether the voucher was seen before is for the caller to judge, between these two.
    pub fn take_voucher(&mut self, setup: &Setup, value: u32) -> Result<(), Refusal>
        requires balance { self.old.balance < 2 ^ 63 }
        requires total { HasRoomAt MeterData.VoucherIn self.old }
        ensures answer { result ≡
            outcome (income_refusal (is_voucher_value value) setup.now.credit_limit self.old.balance value) }
        ensures money { OnOk result (self.new ≡ with_income MeterData.VoucherIn value self.old) }
        ensures stays { OnErr result (self.new ≡ self.old) }
    {
        let is_enabled = 1 <= value && value <= MOST_AMOUNT;
        self.take_in(setup, is_enabled, Meter::VoucherIn, value)
    }

    /// Takes the wager of a play off the balance, and counts the play. It is refused with NoCredit where the balance is
    /// below `cents`; then nothing changes.
    pub fn wager(&mut self, cents: u32) -> Result<(), Refusal>
        requires wagered { HasRoomAt MeterData.Wagered self.old }
        requires played { HasRoomAt MeterData.GamesPlayed self.old }
        ensures answer { result ≡ outcome (wager_refusal self.old.balance cents) }
        ensures money { OnOk result (self.new ≡ with_wager cents self.old) }
        ensures stays { OnErr result (self.new ≡ self.old) }
    {
        let cents = u64::from(cents);
        if self.balance < cents {
            return Err(Refusal::NoCredit);
        }
        self.balance -= cents;
        add(&mut self.totals, Meter::Wagered, cents);
        add(&mut self.totals, Meter::GamesPlayed, 1);
        Ok(())
    }

    /// Posts the win of an ended play, in cents. A win of 0 changes nothing. Every other is counted; below the handpay
    /// limit it goes to the balance, and from the limit on it is held: then the caller opens a handpay over it.
    pub fn post_win(&mut self, setup: &Setup, win: u64) -> Posted
        requires balance { self.old.balance < 2 ^ 63 }
        requires win { win < 2 ^ 63 }
        requires won { HasRoomAt MeterData.Won self.old }
        requires games { HasRoomAt MeterData.GamesWon self.old }
        ensures answer { result ≡ posting setup.now win }
        ensures money { self.new ≡ with_win setup.now win self.old }
    {
        if win == 0 {
            return Posted::Nothing;
        }
        add(&mut self.totals, Meter::Won, win);
        add(&mut self.totals, Meter::GamesWon, 1);
        if win < u64::from(setup.handpay_limit) {
            self.balance += win;
            return Posted::Credited;
        }
        Posted::Held
    }

    /// Adds an amount at a meter: cents, or 1 at a count. The balance stays.
    pub fn add(&mut self, meter: Meter, amount: u64)
        requires total { HasRoomAt meter self.old }
        requires amount { amount < 2 ^ 63 }
        ensures { self.new ≡ with_amount meter amount self.old }
    {
        add(&mut self.totals, meter, amount);
    }

    /// Puts cents on the balance. The totals stay.
    pub fn credit(&mut self, cents: u64)
        requires { self.old.balance + cents < 2 ^ 64 }
        ensures { self.new ≡ record self.old { balance = self.old.balance + cents } }
    {
        self.balance += cents;
    }

    /// Takes cents off the balance. The totals stay.
    pub fn debit(&mut self, cents: u64)
        requires { cents ≤ self.old.balance }
        ensures { self.new ≡ record self.old { balance = self.old.balance - cents } }
    {
        self.balance -= cents;
    }

    /// The balance in cents.
    pub fn balance(&self) -> u64
        ensures { result ≡ self.now.balance }
    {
        self.balance
    }

    /// The whole total of a meter: cents, or a count. `shown` tells what is shown of it.
    pub fn meter(&self, m: Meter) -> u64
        ensures { result ≡ slice_index self.now.totals (meter_place m) }
    {
        self.totals[m.place()]
    }

    /// The whole totals of the sixteen meters, in their order.
    pub fn totals(&self) -> &[u64; 16]
        ensures { result.now ≡ self.now.totals }
    {
        &self.totals
    }

    /// Takes money in at a meter, where its value is enabled and the balance doesn't pass the credit limit.
    fn take_in(
        &mut self,
        setup: &Setup,
        is_enabled: bool,
        meter: Meter,
        value: u32,
    ) -> Result<(), Refusal>
        requires balance { self.old.balance < 2 ^ 63 }
        requires total { HasRoomAt meter self.old }
        ensures answer { result ≡
            outcome (income_refusal is_enabled setup.now.credit_limit self.old.balance value) }
        ensures money { OnOk result (self.new ≡ with_income meter value self.old) }
        ensures stays { OnErr result (self.new ≡ self.old) }
    {
        let value = u64::from(value);
        if !is_enabled {
            return Err(Refusal::ValueNotEnabled);
        }
        if self.balance + value > u64::from(setup.credit_limit) {
            return Err(Refusal::CreditLimit);
        }
        self.balance += value;
        add(&mut self.totals, meter, value);
        Ok(())
    }
}

/// Whether bills of this value are enabled.
fn is_enabled_bill(setup: &Setup, value: u32) -> bool
    ensures { result ≡ is_bill setup.now value }
{
    setup.bills[..setup.bill_count as usize]
        .iter()
        .any(|bill| *bill == value)
}
