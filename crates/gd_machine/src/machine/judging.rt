//! What refuses an event whatever it is about: a lock, and an open order.

ghost use Rattle.std.specs.Prelude.{◌≡◌, [], ◌∷◌};
ghost use Rattle.gd_account.specs.Judging.{first_refusal, outcome};
ghost use Rattle.gd_base.specs.Judging.Rule.{while_locked, while_ordered};
ghost use Rattle.gd_machine.specs.Words.{machine_view};

use super::Machine;
use gd_base::Refusal;

impl Machine {
    /// Refused while a condition locks the machine up.
    pub(super) fn check_unlocked(&self) -> Result<(), Refusal>
        ensures { result ≡ outcome (while_locked (machine_view self.now)) }
    {
        let handpay = self.payout.open_handpay().is_some();
        match self.conditions.shown_condition(handpay) {
            None => Ok(()),
            Some(condition) => Err(Refusal::LockedUp(condition)),
        }
    }

    /// Refused while a condition locks the machine up, and then while an order is open.
    pub(super) fn check_free(&self) -> Result<(), Refusal>
        ensures { result ≡ outcome
            (first_refusal (while_locked (machine_view self.now) ∷ while_ordered (machine_view self.now) ∷ [])) }
    {
        self.check_unlocked()?;
        if self.payout.open_order().is_some() {
            return Err(Refusal::OrderOpen);
        }
        Ok(())
    }
}
