//! Lines that aren't events.

ghost use Rattle.std.specs.Prelude.{◌≡◌, option_map, option_and_then};
ghost use Rattle.gd_base.specs.Texts.Names.{device_name};
ghost use Rattle.gd_script.specs.Names.{side_name, unit_name, what_name};
ghost use Rattle.gd_script.specs.Reading.{alter_item, bare_item, cut_item, item_with, value_named, numbered_item, only_word, order_of, word_pair, words};

use crate::events::{bare_event, event_with, read_event};
use crate::fields::{read_byte, read_number, read_order};
use crate::item::{Item, OrderWord};
use crate::keyword::Keyword;
use crate::limits::{LAST_PLACE, LEAST_CUT, MOST_CUT, MOST_MASK, MOST_NUMBER};
use crate::named::find_named;
use crate::tables::{DEVICES, SHOWN, SIDES, UNITS};
use crate::words::{only_word, split_first, word_pair};
use gd_base::What;
use gd_disk::MOST_TORN;

/// The item of a line that is this one word, or none.
#[tactic(auto, unfolding(crate::specs::Reading::bare_item))]
pub(crate) fn bare_item(keyword: Keyword) -> Option<Item>
    ensures { result ≡ bare_item keyword }
{
    match keyword {
        Keyword::Off => Some(Item::Off),
        Keyword::On => Some(Item::On),
        Keyword::Clear => Some(Item::Clear),
        Keyword::Order => Some(Item::Show(What::Order)),
        _ => Some(Item::Event(bare_event(keyword)?)),
    }
}

/// The item of a line of this first word, by the text behind it, or none.
#[tactic(auto, unfolding(crate::specs::Reading::item_with))]
pub(crate) fn item_with(keyword: Keyword, fields: &[u8]) -> Option<Item>
    ensures { result ≡ item_with keyword (words fields.now) }
{
    match keyword {
        Keyword::Printed => read_order_item(OrderWord::Printed, fields),
        Keyword::PrintFail => read_order_item(OrderWord::PrintFail, fields),
        Keyword::CoinPaid => read_order_item(OrderWord::CoinPaid, fields),
        Keyword::HopperEmpty => read_order_item(OrderWord::HopperEmpty, fields),
        Keyword::Again => Some(Item::Again(find_named(&DEVICES, only_word(fields)?)?)),
        Keyword::As => read_numbered(fields),
        Keyword::Cut => read_cut(fields),
        Keyword::Alter => read_alter(fields),
        Keyword::Show => Some(Item::Show(find_named(&SHOWN, only_word(fields)?)?)),
        _ => Some(Item::Event(event_with(keyword, fields)?)),
    }
}

/// An event of an order, by its word, and by the order's number or the word `open`.
fn read_order_item(kind: OrderWord, fields: &[u8]) -> Option<Item>
    ensures { result ≡ option_map (Item.OrderEvent kind)
        (option_and_then order_of (only_word (words fields.now))) }
{
    let order = read_order(only_word(fields)?)?;
    Some(Item::OrderEvent { kind, order })
}

/// An event under a number of its own.
#[tactic(auto, unfolding(crate::specs::Reading::event_of))]
fn read_numbered(fields: &[u8]) -> Option<Item>
    ensures { result ≡ numbered_item (words fields.now) }
{
    let (number, text) = split_first(fields);
    let number = read_number(number, 0, MOST_NUMBER)?;
    let event = read_event(text?)?;
    Some(Item::As { number, event })
}

/// A cut, by what is counted, how far, and the kind of its loss.
fn read_cut(fields: &[u8]) -> Option<Item>
    ensures { result ≡ cut_item (words fields.now) }
{
    let (unit, rest) = split_first(fields);
    let (count, torn) = word_pair(rest?)?;
    let unit = find_named(&UNITS, unit)?;
    let count = read_number(count, u64::from(LEAST_CUT), u64::from(MOST_CUT))?;
    let torn = read_byte(torn, 0, MOST_TORN)?;
    Some(Item::Cut {
        unit,
        count: count as u32,
        torn,
    })
}

/// An alteration of one byte of a copy, by the copy, the place in it and the mask.
fn read_alter(fields: &[u8]) -> Option<Item>
    ensures { result ≡ alter_item (words fields.now) }
{
    let (side, rest) = split_first(fields);
    let (at, mask) = word_pair(rest?)?;
    let side = find_named(&SIDES, side)?;
    let at = read_number(at, 0, LAST_PLACE)?;
    let mask = read_byte(mask, 0, MOST_MASK)?;
    Some(Item::Alter { side, at, mask })
}
