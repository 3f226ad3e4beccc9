//! The setup that holds where none is given.

ghost use Rattle.std.specs.Prelude.{◌≡◌};
ghost use Rattle.gd_base.specs.Setups.BuiltIn.{built_in_setup};

use gd_base::{PRIZES, REEL_PAYS, STRIPS, Setup};

/// The built-in setup. docs/FORMATS.md shows it.
pub fn built_in() -> Setup
    ensures { result ≡ built_in_setup }
{
    Setup {
        denom: 5,
        credit_limit: 1_000_000,
        handpay_limit: 120_000,
        gamble_limit: 20_000,
        bills: [100, 500, 1000, 2000, 5000, 10_000, 0, 0],
        bill_count: 6,
        coin: 25,
        hopper: true,
        hopper_limit: 2000,
        voucher_limit: 300_000,
        reels_enabled: true,
        strips: STRIPS,
        reel_pays: REEL_PAYS,
        prizes: PRIZES,
        poker_enabled: true,
        poker_pays: [250, 50, 25, 9, 6, 4, 3, 2, 1],
    }
}
