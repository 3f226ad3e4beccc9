//! Event lines.

ghost use Rattle.std.specs.Prelude.{◌≡◌, option_map, option_and_then};
ghost use Rattle.gd_base.specs.Texts.Names.{game_name};
ghost use Rattle.gd_base.specs.Texts.Names.{door_name, tilt_name};
ghost use Rattle.gd_script.specs.Reading.{amount_in_word, bare_event, event_of, event_with, value_named, number_in, number_of};
ghost use Rattle.gd_script.specs.Reading.{only_word, word_pair, play_of, voucher_of, words};

use crate::fields::{read_amount, read_byte, read_hold, read_keyword, read_number};
use crate::keyword::Keyword;
use crate::limits::{LEAST_PICK, MOST_BET, MOST_NUMBER};
use crate::named::find_named;
use crate::tables::{DOORS, GAMES, TILTS};
use crate::words::{only_word, split_first, word_pair};
use gd_base::{Colour, Door, Event, MOST_PICK, Tilt};

/// The event that a text says, as it stands alone and behind `as N `, or none. An order has its number there.
#[tactic(auto, unfolding(crate::specs::Reading::event_of))]
pub(crate) fn read_event(text: &[u8]) -> Option<Event>
    ensures { result ≡ event_of (words text.now) }
{
    let (first, rest) = split_first(text);
    let keyword = read_keyword(first)?;
    match rest {
        None => bare_event(keyword),
        Some(fields) => event_with(keyword, fields),
    }
}

/// The event of a line that is this one word, or none.
#[tactic(auto, unfolding(crate::specs::Reading::bare_event))]
pub(crate) fn bare_event(keyword: Keyword) -> Option<Event>
    ensures { result ≡ bare_event keyword }
{
    match keyword {
        Keyword::BillJam => Some(Event::BillJam),
        Keyword::StackerFull => Some(Event::StackerFull),
        Keyword::CoinJam => Some(Event::CoinJam),
        Keyword::PaperOut => Some(Event::PaperOut),
        Keyword::Red => Some(Event::Gamble {
            colour: Colour::Red,
        }),
        Keyword::Black => Some(Event::Gamble {
            colour: Colour::Black,
        }),
        Keyword::Take => Some(Event::Take),
        Keyword::CashOut => Some(Event::CashOut),
        Keyword::Handpay => Some(Event::HandpayDone),
        _ => None,
    }
}

/// The event of a line of this first word, by the text behind it, or none.
#[tactic(auto, unfolding(crate::specs::Reading::event_with))]
pub(crate) fn event_with(keyword: Keyword, fields: &[u8]) -> Option<Event>
    ensures { result ≡ event_with keyword (words fields.now) }
{
    match keyword {
        Keyword::Bill => only_amount(fields).map(|value| Event::Bill { value }),
        Keyword::Coin => only_amount(fields).map(|value| Event::Coin { value }),
        Keyword::Voucher => read_voucher(fields),
        Keyword::Printed => only_number(fields).map(|order| Event::Printed { order }),
        Keyword::PrintFail => only_number(fields).map(|order| Event::PrintFail { order }),
        Keyword::CoinPaid => only_number(fields).map(|order| Event::CoinPaid { order }),
        Keyword::HopperEmpty => only_number(fields).map(|order| Event::HopperEmpty { order }),
        Keyword::Open => only_door(fields).map(|door| Event::DoorOpen { door }),
        Keyword::Shut => only_door(fields).map(|door| Event::DoorShut { door }),
        Keyword::Play => read_play(fields),
        Keyword::Pick => read_pick(fields),
        Keyword::Hold => read_hold(only_word(fields)?).map(|mask| Event::Hold { mask }),
        Keyword::ClearTilt => only_tilt(fields).map(|tilt| Event::ClearTilt { tilt }),
        _ => None,
    }
}

/// The amount that the only field is, or none.
fn only_amount(fields: &[u8]) -> Option<u32>
    ensures { result ≡ option_and_then amount_in_word (only_word (words fields.now)) }
{
    read_amount(only_word(fields)?)
}

/// The number that the only field is, or none.
fn only_number(fields: &[u8]) -> Option<u64>
    ensures { result ≡ option_and_then number_of (only_word (words fields.now)) }
{
    read_number(only_word(fields)?, 0, MOST_NUMBER)
}

/// The door that the only field names, or none.
fn only_door(fields: &[u8]) -> Option<Door>
    ensures { result ≡ option_and_then (value_named door_name DOORS) (only_word (words fields.now)) }
{
    find_named(&DOORS, only_word(fields)?)
}

/// The tilt that the only field names, or none.
fn only_tilt(fields: &[u8]) -> Option<Tilt>
    ensures { result ≡ option_and_then (value_named tilt_name TILTS) (only_word (words fields.now)) }
{
    find_named(&TILTS, only_word(fields)?)
}

/// The choice of this door.
fn read_pick(fields: &[u8]) -> Option<Event>
    ensures { result ≡ option_map Event.Pick
        (option_and_then (number_in LEAST_PICK MOST_PICK) (only_word (words fields.now))) }
{
    let door = read_byte(only_word(fields)?, LEAST_PICK, MOST_PICK)?;
    Some(Event::Pick { door })
}

/// A voucher of this id and amount.
fn read_voucher(fields: &[u8]) -> Option<Event>
    ensures { result ≡ voucher_of (word_pair (words fields.now)) }
{
    let (id, value) = word_pair(fields)?;
    let id = read_number(id, 0, MOST_NUMBER)?;
    let value = read_amount(value)?;
    Some(Event::VoucherIn { id, value })
}

/// A play of this game and bet.
fn read_play(fields: &[u8]) -> Option<Event>
    ensures { result ≡ play_of (word_pair (words fields.now)) }
{
    let (game, bet) = word_pair(fields)?;
    let game = find_named(&GAMES, game)?;
    let bet = read_byte(bet, 0, MOST_BET)?;
    Some(Event::Play { game, bet })
}
