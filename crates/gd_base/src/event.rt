//! Events. docs/DEFINITIONS.md says how an event is judged and what it does.

use crate::condition::{Door, Tilt};
use crate::device::Device;
use crate::game::{Colour, Game};

/// What a device tells. Values are in cents. An event of money means that the piece is held in escrow: it is kept where
/// the event is taken, and given back where it is refused.
#[derive(Clone, Copy, PartialEq, Eq, Debug)]
pub enum Event {
    /// A bill of a value in cents.
    Bill { value: u32 },
    /// A bill is stuck: the tilt of this name comes up, as with the other events named for a tilt.
    BillJam,
    /// The box of the bill validator is full.
    StackerFull,
    /// A coin of a value in cents.
    Coin { value: u32 },
    /// A coin is stuck.
    CoinJam,
    /// A voucher of a value in cents, by the id that is printed on it.
    VoucherIn { id: u64, value: u32 },
    /// The voucher of the order of this number was printed.
    Printed { order: u64 },
    /// The voucher of the order of this number could not be printed.
    PrintFail { order: u64 },
    /// The printer has no paper.
    PaperOut,
    /// One coin of the order of this number was paid out.
    CoinPaid { order: u64 },
    /// The hopper ran empty at the order of this number.
    HopperEmpty { order: u64 },
    /// A door was opened.
    DoorOpen { door: Door },
    /// A door was shut.
    DoorShut { door: Door },
    /// A play of a bet in credits: 1 to 9 in reels, which is also the number of lines, and 1 to 5 in poker.
    Play { game: Game, bet: u8 },
    /// The choice among five prizes, by a door from 1 to 5.
    Pick { door: u8 },
    /// The cards that are held: bit 0 stands for the first card, bit 4 for the last.
    Hold { mask: u8 },
    /// One turn of doubling the win by the colour of the next card.
    Gamble { colour: Colour },
    /// The win of the open play is taken as it stands.
    Take,
    /// All credit is to be paid out.
    CashOut,
    /// The attendant clears a tilt.
    ClearTilt { tilt: Tilt },
    /// The attendant paid the open handpay.
    HandpayDone,
    /// The power came back. The machine tells it to itself, and no device does.
    Start,
}

impl Event {
    ghost use Rattle.std.specs.Prelude.{◌≡◌};
    ghost use Rattle.gd_base.specs.Histories.Entry.{device_of};

    /// The device that tells this event.
    pub fn device(&self) -> Device
        ensures { result ≡ device_of self.now }
    {
        match self {
            Event::Bill { .. } | Event::BillJam | Event::StackerFull => Device::Bill,
            Event::Coin { .. } | Event::CoinJam => Device::Coin,
            Event::VoucherIn { .. } => Device::Reader,
            Event::Printed { .. } | Event::PrintFail { .. } | Event::PaperOut => Device::Printer,
            Event::CoinPaid { .. } | Event::HopperEmpty { .. } => Device::Hopper,
            Event::DoorOpen { .. } | Event::DoorShut { .. } => Device::Doors,
            Event::Play { .. }
            | Event::Pick { .. }
            | Event::Hold { .. }
            | Event::Gamble { .. }
            | Event::Take
            | Event::CashOut => Device::Player,
            Event::ClearTilt { .. } | Event::HandpayDone => Device::Attendant,
            Event::Start => Device::Power,
        }
    }
}
