//! The values that a field names, for each kind of name.

use gd_base::{Device, Door, Game, Tilt, What};
use gd_disk::{CutUnit, Side};

/// The devices whose last number a line can repeat: all but the power.
pub(crate) const DEVICES: [Device; 8] = [
    Device::Bill,
    Device::Coin,
    Device::Reader,
    Device::Printer,
    Device::Hopper,
    Device::Doors,
    Device::Player,
    Device::Attendant,
];

/// The doors.
pub(crate) const DOORS: [Door; 4] = [Door::Logic, Door::Main, Door::Cashbox, Door::Drop];

/// The games.
pub(crate) const GAMES: [Game; 2] = [Game::Reels, Game::Poker];

/// The texts that `show` names. `order` is a line of its own.
pub(crate) const SHOWN: [What; 4] = [What::Meters, What::State, What::Recall, What::Events];

/// The two copies.
pub(crate) const SIDES: [Side; 2] = [Side::A, Side::B];

/// The tilts.
pub(crate) const TILTS: [Tilt; 6] = [
    Tilt::BillJam,
    Tilt::CoinJam,
    Tilt::StackerFull,
    Tilt::PaperOut,
    Tilt::PrintFail,
    Tilt::HopperEmpty,
];

/// What is counted before a cut.
pub(crate) const UNITS: [CutUnit; 2] = [CutUnit::Call, CutUnit::Sync];
