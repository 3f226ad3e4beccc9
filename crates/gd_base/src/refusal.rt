//! How an event is judged.

ghost use Rattle.std.specs.Prelude.{◌≡◌, ◌≤◌, length};
ghost use Rattle.gd_base.specs.Texts.Names.{refusal_name};
ghost use Rattle.gd_base.specs.Histories.Numbers.{refusal_condition, refusal_number};

use crate::condition::Condition;

/// Why an event is refused. The refusals of an event are tried in the order of docs/DEFINITIONS.md. They are numbered
/// from 1 in the order of this enum.
#[derive(Clone, Copy, PartialEq, Eq, Debug)]
pub enum Refusal {
    /// The machine is locked up, and this is the first condition that stands.
    LockedUp(Condition),
    /// The balance would come above the credit limit.
    CreditLimit,
    /// The bill or coin isn't of an enabled value, or the voucher's value is 0 or above 100,000,000 cents.
    ValueNotEnabled,
    /// The game isn't enabled.
    NoGame,
    /// The bet is 0 or above the game's most.
    BadWager,
    /// The balance is below the wager.
    NoCredit,
    /// A play is open.
    PlayOpen,
    /// No play is open.
    NoPlay,
    /// The open play isn't in the stage of this choice, or the choice is out of range.
    BadChoice,
    /// An order is open.
    OrderOpen,
    /// The balance is 0.
    NothingToPay,
    /// No order of this number is open at this device.
    NoSuchOrder,
    /// The tilt doesn't stand.
    NoSuchTilt,
    /// No handpay is open.
    NoHandpay,
    /// The voucher's id stands as taken in among the last vouchers.
    VoucherSeen,
    /// The door is open, or shut, already.
    DoorAlready,
}

impl Refusal {
    /// The refusal's number, 1 to 16.
    pub fn number(&self) -> u8
        ensures value { result ≡ refusal_number self.now }
        ensures most { result ≤ 16 }
    {
        match self {
            Refusal::LockedUp(_) => 1,
            Refusal::CreditLimit => 2,
            Refusal::ValueNotEnabled => 3,
            Refusal::NoGame => 4,
            Refusal::BadWager => 5,
            Refusal::NoCredit => 6,
            Refusal::PlayOpen => 7,
            Refusal::NoPlay => 8,
            Refusal::BadChoice => 9,
            Refusal::OrderOpen => 10,
            Refusal::NothingToPay => 11,
            Refusal::NoSuchOrder => 12,
            Refusal::NoSuchTilt => 13,
            Refusal::NoHandpay => 14,
            Refusal::VoucherSeen => 15,
            Refusal::DoorAlready => 16,
        }
    }

    /// The number of the condition that a lock-up names, 1 to 11; 0 for any other refusal.
    pub fn condition_number(&self) -> u8
        ensures { result ≡ refusal_condition self.now }
    {
        match self {
            Refusal::LockedUp(condition) => condition.number(),
            _ => 0,
        }
    }

    /// The refusal's name in replies, as `credit-limit`. A lock-up has its condition's name beside it.
    pub fn name(&self) -> &'static str
        ensures value { result.now ≡ refusal_name self.now }
        ensures short { length result.now ≤ 17 }
    {
        match self {
            Refusal::LockedUp(_) => "locked-up",
            Refusal::CreditLimit => "credit-limit",
            Refusal::ValueNotEnabled => "value-not-enabled",
            Refusal::NoGame => "no-game",
            Refusal::BadWager => "bad-wager",
            Refusal::NoCredit => "no-credit",
            Refusal::PlayOpen => "play-open",
            Refusal::NoPlay => "no-play",
            Refusal::BadChoice => "bad-choice",
            Refusal::OrderOpen => "order-open",
            Refusal::NothingToPay => "nothing-to-pay",
            Refusal::NoSuchOrder => "no-such-order",
            Refusal::NoSuchTilt => "no-such-tilt",
            Refusal::NoHandpay => "no-handpay",
            Refusal::VoucherSeen => "voucher-seen",
            Refusal::DoorAlready => "door-already",
        }
    }
}

/// How a new event was judged.
#[derive(Clone, Copy, PartialEq, Eq, Debug)]
pub enum Reply {
    /// It has its effect.
    Taken,
    /// It has no effect but its entry.
    Refused(Refusal),
}
