//! Money that comes in.

ghost use Rattle.std.specs.Prelude.{◌≡◌, ◌&&◌, OnErr, OnOk, None};
ghost use Rattle.gd_account.specs.Judging.{is_voucher_value, outcome};
ghost use Rattle.gd_base.specs.declared.event.Event.{Event};
ghost use Rattle.gd_base.specs.declared.refusal.Refusal.{Refusal as RefusalData};
ghost use Rattle.gd_base.specs.Judging.Rule.{is_seen, refuse_if, rule};
ghost use Rattle.gd_machine.specs.Acts.{acted, replied};
ghost use Rattle.gd_machine.specs.Words.{machine_setup, machine_view, IsWhole};

use super::Machine;
use super::noting::TAKEN_IN;
use gd_base::{BillRecord, MOST_AMOUNT, Refusal, VoucherRecord};

impl Machine {
    /// Takes a bill of a value in cents, or refuses it.
    pub(super) fn take_bill(&mut self, value: u32) -> Result<(), Refusal>
        requires whole { IsWhole (machine_setup self.old) (machine_view self.old) }
        ensures answer { replied result ≡ rule (machine_setup self.old) (machine_view self.old) (Event.Bill value) }
        ensures view { OnOk result (machine_view self.new ≡
            acted (machine_setup self.old) (machine_view self.old) (Event.Bill value) None) }
        ensures stays { OnErr result (machine_view self.new ≡ machine_view self.old) }
        ensures setup { machine_setup self.new ≡ machine_setup self.old }
    {
        self.check_free()?;
        self.account.take_bill(&self.setup, value)?;
        self.recall.note_bill(&BillRecord {
            place: self.count + 1,
            value,
        });
        Ok(())
    }

    /// Takes a coin of a value in cents, or refuses it.
    pub(super) fn take_coin(&mut self, value: u32) -> Result<(), Refusal>
        requires whole { IsWhole (machine_setup self.old) (machine_view self.old) }
        ensures answer { replied result ≡ rule (machine_setup self.old) (machine_view self.old) (Event.Coin value) }
        ensures view { OnOk result (machine_view self.new ≡
            acted (machine_setup self.old) (machine_view self.old) (Event.Coin value) None) }
        ensures stays { OnErr result (machine_view self.new ≡ machine_view self.old) }
        ensures setup { machine_setup self.new ≡ machine_setup self.old }
    {
        self.check_free()?;
        self.account.take_coin(&self.setup, value)
    }

    /// Refused where a voucher of a good value was seen before, by its id.
    fn check_unseen(&self, id: u64, value: u32) -> Result<(), Refusal>
        ensures { result ≡ outcome
            (refuse_if (is_voucher_value value && is_seen (machine_view self.now) id) RefusalData.VoucherSeen) }
    {
        if 1 <= value && value <= MOST_AMOUNT && self.recall.seen(id) {
            return Err(Refusal::VoucherSeen);
        }
        Ok(())
    }

    /// Takes a voucher of an id and a value in cents, or refuses it. Whether its id was seen comes behind its value, and
    /// before the credit limit.
    pub(super) fn take_voucher(&mut self, id: u64, value: u32) -> Result<(), Refusal>
        requires whole { IsWhole (machine_setup self.old) (machine_view self.old) }
        ensures answer { replied result ≡
            rule (machine_setup self.old) (machine_view self.old) (Event.VoucherIn id value) }
        ensures view { OnOk result (machine_view self.new ≡
            acted (machine_setup self.old) (machine_view self.old) (Event.VoucherIn id value) None) }
        ensures stays { OnErr result (machine_view self.new ≡ machine_view self.old) }
        ensures setup { machine_setup self.new ≡ machine_setup self.old }
    {
        self.check_free()?;
        self.check_unseen(id, value)?;
        self.account.take_voucher(&self.setup, value)?;
        self.recall.note_voucher(&VoucherRecord {
            place: self.count + 1,
            kind: TAKEN_IN,
            id,
            value,
        });
        Ok(())
    }
}
