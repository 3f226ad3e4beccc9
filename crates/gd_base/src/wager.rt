//! What a bet costs.

ghost use Rattle.std.specs.Prelude.{◌≡◌};

use crate::setup::Setup;

impl Setup {
    ghost use Rattle.gd_base.specs.Histories.Credit.{wager};

    /// The cents of a bet in credits.
    pub fn wager(&self, bet: u8) -> u32
        ensures { result ≡ wager self.now bet }
    {
        u32::from(bet) * u32::from(self.denom)
    }
}
