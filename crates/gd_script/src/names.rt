//! The words that name a value, for each kind of value.

ghost use Rattle.std.specs.Prelude.{◌≡◌};
ghost use Rattle.gd_base.specs.Texts.Names.{device_name, game_name};
ghost use Rattle.gd_base.specs.Texts.Names.{door_name, tilt_name};
ghost use Rattle.gd_script.specs.Names.{order_name, side_name, unit_name, what_name};
ghost use Rattle.gd_script.specs.Reading.{keyword_name};

use crate::item::OrderWord;
use crate::keyword::Keyword;
use crate::named::Named;
use gd_base::{Device, Door, Game, Tilt, What};
use gd_disk::{CutUnit, Side};

impl Named for Device {
    ghost name_of = { device_name };

    fn word(&self) -> &'static str {
        self.name()
    }
}

impl Named for Door {
    ghost name_of = { door_name };

    fn word(&self) -> &'static str {
        self.name()
    }
}

impl Named for Tilt {
    ghost name_of = { tilt_name };

    fn word(&self) -> &'static str {
        self.name()
    }
}

impl Named for Game {
    ghost name_of = { game_name };

    fn word(&self) -> &'static str {
        self.name()
    }
}

impl Named for What {
    ghost name_of = { what_name };

    fn word(&self) -> &'static str {
        match self {
            What::Meters => "meters",
            What::State => "state",
            What::Recall => "recall",
            What::Events => "events",
            What::Order => "order",
        }
    }
}

impl Named for CutUnit {
    ghost name_of = { unit_name };

    fn word(&self) -> &'static str {
        match self {
            CutUnit::Call => "call",
            CutUnit::Sync => "sync",
        }
    }
}

impl Named for Side {
    ghost name_of = { side_name };

    fn word(&self) -> &'static str {
        match self {
            Side::A => "a",
            Side::B => "b",
        }
    }
}

impl Named for OrderWord {
    ghost name_of = { order_name };

    fn word(&self) -> &'static str {
        match self {
            OrderWord::Printed => "printed",
            OrderWord::PrintFail => "print-fail",
            OrderWord::CoinPaid => "coin-paid",
            OrderWord::HopperEmpty => "hopper-empty",
        }
    }
}

impl Named for Keyword {
    ghost name_of = { keyword_name };

    fn word(&self) -> &'static str {
        match self {
            Keyword::Bill => "bill",
            Keyword::BillJam => "bill-jam",
            Keyword::StackerFull => "stacker-full",
            Keyword::Coin => "coin",
            Keyword::CoinJam => "coin-jam",
            Keyword::Voucher => "voucher",
            Keyword::Printed => "printed",
            Keyword::PrintFail => "print-fail",
            Keyword::PaperOut => "paper-out",
            Keyword::CoinPaid => "coin-paid",
            Keyword::HopperEmpty => "hopper-empty",
            Keyword::Open => "open",
            Keyword::Shut => "shut",
            Keyword::Play => "play",
            Keyword::Pick => "pick",
            Keyword::Hold => "hold",
            Keyword::Red => "red",
            Keyword::Black => "black",
            Keyword::Take => "take",
            Keyword::CashOut => "cashout",
            Keyword::ClearTilt => "clear-tilt",
            Keyword::Handpay => "handpay",
            Keyword::Again => "again",
            Keyword::As => "as",
            Keyword::Off => "off",
            Keyword::On => "on",
            Keyword::Cut => "cut",
            Keyword::Alter => "alter",
            Keyword::Clear => "clear",
            Keyword::Show => "show",
            Keyword::Order => "order",
        }
    }
}
