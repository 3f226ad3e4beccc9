//! Items printed as lines of a script.

ghost use Rattle.std.specs.Prelude.{◌≡◌, ◌≤◌, ◌+◌, ◌++◌, ◌∷◌, [], ◌<◌, if◌then◌else◌, codes, decimal, length, Ok};
ghost use Rattle.std.specs.List.{join_with_byte};
ghost use Rattle.arrayvec.specs.ArrayString.{array_string_len};
ghost use Rattle.gd_base.specs.Games.Chance.{has_bit};
ghost use Rattle.gd_base.specs.Texts.OfViews.{bits};
ghost use Rattle.gd_script.specs.Grammar.{InGrammar, IsLineEvent, event_words, line_text, order_number, show_words};
ghost use Rattle.gd_script.specs.Names.{order_name};
ghost use Rattle.gd_script.specs.Reading.{read_of};

use crate::item::{Item, OrderWord};
use crate::limits::{LINE_LEN, NUMBER_LEN, SPACE, WORD_LEN};
use crate::named::Named;
use gd_base::{Colour, Event, HELD_CARDS, TEXT_LEN, Text, What, push_number};

/// The most bytes of two words.
const TWO_WORDS_LEN: usize = WORD_LEN + 1 + WORD_LEN;

/// The most bytes of a word and a number.
const COUNT_LEN: usize = WORD_LEN + 1 + NUMBER_LEN;

/// The most bytes of two numbers, each behind a space.
const TWO_NUMBERS_LEN: usize = 1 + NUMBER_LEN + 1 + NUMBER_LEN;

/// The most bytes of an event: of a word and two numbers.
const EVENT_LEN: usize = WORD_LEN + TWO_NUMBERS_LEN;

/// Writes the line of an item with its LF, in place of what the text held: at most 121 bytes. `read_line` gives the
/// item for the line without its LF. The item is one that `read_line` gives for some line; docs/FORMATS.md has the
/// grammar.
pub fn print_item(item: &Item, into: &mut Text)
    requires grammar { InGrammar item.now }
    ensures bytes { into.new.bytes ≡ line_text item.now ++ codes "\n" }
    ensures room { array_string_len into.new ≤ LINE_LEN + 1 }
    ensures again { read_of (line_text item.now) ≡ Ok item.now }
{
    into.clear();
    push_item(item, into);
    into.push_str("\n");
}

/// Appends the words of an item.
fn push_item(item: &Item, into: &mut Text)
    requires grammar { InGrammar item.now }
    requires room { array_string_len into.old + LINE_LEN ≤ TEXT_LEN }
    ensures bytes { into.new.bytes ≡ into.old.bytes ++ line_text item.now }
    ensures room { array_string_len into.new ≤ array_string_len into.old + LINE_LEN }
{
    match item {
        Item::Event(event) => push_event(event, into),
        Item::OrderEvent { kind, order } => push_order(*kind, *order, into),
        Item::Again(device) => push_word(into, "again", device.name()),
        Item::As { number, event } => {
            push_count(into, "as", *number);
            into.push_str(" ");
            push_event(event, into);
        }
        Item::Off => into.push_str("off"),
        Item::On => into.push_str("on"),
        Item::Cut { unit, count, torn } => {
            push_word(into, "cut", unit.word());
            push_two(into, u64::from(*count), u64::from(*torn));
        }
        Item::Alter { side, at, mask } => {
            push_word(into, "alter", side.word());
            push_two(into, *at, u64::from(*mask));
        }
        Item::Clear => into.push_str("clear"),
        Item::Show(what) => push_show(*what, into),
        Item::Skip => into.push_str("#"),
    }
}

/// Appends the words of an event.
fn push_event(event: &Event, into: &mut Text)
    requires grammar { IsLineEvent event.now }
    requires room { array_string_len into.old + EVENT_LEN ≤ TEXT_LEN }
    ensures bytes { into.new.bytes ≡ into.old.bytes ++ join_with_byte SPACE (event_words event.now) }
    ensures room { array_string_len into.new ≤ array_string_len into.old + EVENT_LEN }
{
    match event {
        Event::Bill { value } => push_count(into, "bill", u64::from(*value)),
        Event::BillJam => into.push_str("bill-jam"),
        Event::StackerFull => into.push_str("stacker-full"),
        Event::Coin { value } => push_count(into, "coin", u64::from(*value)),
        Event::CoinJam => into.push_str("coin-jam"),
        Event::VoucherIn { id, value } => {
            into.push_str("voucher");
            push_two(into, *id, u64::from(*value));
        }
        Event::Printed { order } => push_count(into, "printed", *order),
        Event::PrintFail { order } => push_count(into, "print-fail", *order),
        Event::PaperOut => into.push_str("paper-out"),
        Event::CoinPaid { order } => push_count(into, "coin-paid", *order),
        Event::HopperEmpty { order } => push_count(into, "hopper-empty", *order),
        Event::DoorOpen { door } => push_word(into, "open", door.word()),
        Event::DoorShut { door } => push_word(into, "shut", door.word()),
        Event::Play { game, bet } => {
            push_word(into, "play", game.word());
            into.push_str(" ");
            push_number(into, u64::from(*bet));
        }
        Event::Pick { door } => push_count(into, "pick", u64::from(*door)),
        Event::Hold { mask } => {
            into.push_str("hold ");
            push_bits(into, *mask);
        }
        Event::Gamble {
            colour: Colour::Red,
        } => into.push_str("red"),
        Event::Gamble {
            colour: Colour::Black,
        } => into.push_str("black"),
        Event::Take => into.push_str("take"),
        Event::CashOut => into.push_str("cashout"),
        Event::ClearTilt { tilt } => push_word(into, "clear-tilt", tilt.word()),
        Event::HandpayDone => into.push_str("handpay"),
        Event::Start => unreachable!(),
    }
}

/// Appends an order's word, and its number or the word `open`.
fn push_order(kind: OrderWord, order: Option<u64>, into: &mut Text)
    requires { array_string_len into.old + COUNT_LEN ≤ TEXT_LEN }
    ensures bytes { into.new.bytes ≡
        into.old.bytes ++ join_with_byte SPACE (order_name kind ∷ order_number order ∷ []) }
    ensures room { array_string_len into.new ≤ array_string_len into.old + COUNT_LEN }
{
    match order {
        None => push_word(into, kind.word(), "open"),
        Some(number) => push_count(into, kind.word(), number),
    }
}

/// Appends the words that show a text.
fn push_show(what: What, into: &mut Text)
    requires { array_string_len into.old + TWO_WORDS_LEN ≤ TEXT_LEN }
    ensures bytes { into.new.bytes ≡ into.old.bytes ++ join_with_byte SPACE (show_words what) }
    ensures room { array_string_len into.new ≤ array_string_len into.old + TWO_WORDS_LEN }
{
    match what {
        What::Order => into.push_str("order"),
        _ => push_word(into, "show", what.word()),
    }
}

/// Appends two words.
fn push_word(into: &mut Text, first: &str, second: &str)
    requires room { array_string_len into.old + TWO_WORDS_LEN ≤ TEXT_LEN }
    requires first { length first.now ≤ WORD_LEN }
    requires second { length second.now ≤ WORD_LEN }
    ensures bytes { into.new.bytes ≡ into.old.bytes ++ join_with_byte SPACE (first.now ∷ second.now ∷ []) }
    ensures room { array_string_len into.new ≤ array_string_len into.old + TWO_WORDS_LEN }
{
    into.push_str(first);
    into.push_str(" ");
    into.push_str(second);
}

/// Appends a word and a number.
fn push_count(into: &mut Text, first: &str, count: u64)
    requires room { array_string_len into.old + COUNT_LEN ≤ TEXT_LEN }
    requires first { length first.now ≤ WORD_LEN }
    ensures bytes { into.new.bytes ≡ into.old.bytes ++ join_with_byte SPACE (first.now ∷ decimal count ∷ []) }
    ensures room { array_string_len into.new ≤ array_string_len into.old + COUNT_LEN }
{
    into.push_str(first);
    into.push_str(" ");
    push_number(into, count);
}

/// Appends two numbers, each behind a space.
fn push_two(into: &mut Text, first: u64, second: u64)
    requires { array_string_len into.old + TWO_NUMBERS_LEN ≤ TEXT_LEN }
    ensures bytes { into.new.bytes ≡ into.old.bytes ++ SPACE ∷ decimal first ++ SPACE ∷ decimal second }
    ensures room { array_string_len into.new ≤ array_string_len into.old + TWO_NUMBERS_LEN }
{
    into.push_str(" ");
    push_number(into, first);
    into.push_str(" ");
    push_number(into, second);
}

/// Appends a digit for each card, 1 where it is held.
fn push_bits(into: &mut Text, mask: u8)
    requires { array_string_len into.old + HELD_CARDS ≤ TEXT_LEN }
    ensures bytes { into.new.bytes ≡ into.old.bytes ++ bits mask 0 HELD_CARDS }
    ensures room { array_string_len into.new ≤ array_string_len into.old + HELD_CARDS }
{
    for card in 0..HELD_CARDS {
        into.push_str(bit(mask, card));
    }
}

/// The digit of a card.
fn bit(mask: u8, card: usize) -> &'static str
    requires { card < HELD_CARDS }
    ensures digit { result.now ≡ (if has_bit mask card then codes "1" else codes "0") }
    ensures short { length result.now ≡ 1 }
{
    if (mask >> card) % 2 == 1 { "1" } else { "0" }
}
