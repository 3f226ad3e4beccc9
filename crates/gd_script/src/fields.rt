//! The fields of a line.

ghost use Rattle.std.specs.Prelude.{◌≡◌, ◌≤◌, ◌<◌, ◌↔◌, length, slice_index, IfSome, IsTrue, option_and_then, if◌then◌else◌, None, Some};
ghost use Rattle.std.specs.Str.{all_ascii_digits};
ghost use Rattle.std.specs.Str.Parse.{digits_value};
ghost use Rattle.gd_script.specs.Reading.{amount_in_word, bit_of, hold_of, keyword_of, number_in, number_of, only_word, order_of, words};

use crate::keyword::{KEYWORDS, Keyword};
use crate::limits::{MOST_NUMBER, NUMBER_LEN, ONE, ZERO};
use crate::named::find_named;
use crate::words::only_word;
use gd_base::{HELD_CARDS, MOST_AMOUNT};

/// The keyword that a word is, or none.
#[tactic(auto, unfolding(crate::specs::Reading::keyword_of))]
pub(crate) fn read_keyword(word: &[u8]) -> Option<Keyword>
    ensures { result ≡ keyword_of word.now }
{
    find_named(&KEYWORDS, word)
}

/// The number from `least` to `most` that a word writes in decimal, or none. A sign and a leading zero make it none.
pub(crate) fn read_number(word: &[u8], least: u64, most: u64) -> Option<u64>
    ensures value { result ≡ number_in least most word.now }
    ensures range { IfSome result (λ n. n ≤ most) }
{
    if !starts_plainly(word) {
        return None;
    }
    if word.len() > NUMBER_LEN {
        return None;
    }
    let value = read_digits(word)?;
    if value < u128::from(least) {
        return None;
    }
    if value > u128::from(most) {
        return None;
    }
    Some(value as u64)
}

/// Whether digits begin as those of a number do: with no zero, but for `0` itself.
fn starts_plainly(digits: &[u8]) -> bool
    ensures { IsTrue result ↔
        ((0 < length digits.now) × (slice_index digits.now 0 ≡ ZERO → length digits.now ≡ 1)) }
{
    match digits {
        [] => false,
        [_] => true,
        [first, ..] => *first != ZERO,
    }
}

/// The number that the digits write, or none where one of the bytes is no digit.
fn read_digits(digits: &[u8]) -> Option<u128>
    requires { length digits.now ≤ NUMBER_LEN }
    ensures { result ≡ (if all_ascii_digits digits.now then Some (digits_value 10 digits.now) else None) }
{
    let mut value = 0;
    for digit in digits {
        if !digit.is_ascii_digit() {
            return None;
        }
        value = 10 * value + u128::from(*digit - ZERO);
    }
    Some(value)
}

/// The amount in cents that a word writes, or none.
pub(crate) fn read_amount(word: &[u8]) -> Option<u32>
    ensures { result ≡ amount_in_word word.now }
{
    let value = read_number(word, 0, u64::from(MOST_AMOUNT))?;
    Some(value as u32)
}

/// The number from `least` to `most` that a word writes, or none, as with `read_number`.
pub(crate) fn read_byte(word: &[u8], least: u8, most: u8) -> Option<u8>
    ensures { result ≡ number_in least most word.now }
{
    let value = read_number(word, u64::from(least), u64::from(most))?;
    Some(value as u8)
}

/// The order's number that a word writes: none of them for the word `open`.
#[tactic(auto, unfolding(crate::specs::Reading::order_of))]
pub(crate) fn read_order(word: &[u8]) -> Option<Option<u64>>
    ensures { result ≡ order_of word.now }
{
    if word == b"open".as_slice() {
        return Some(None);
    }
    let order = read_number(word, 0, MOST_NUMBER)?;
    Some(Some(order))
}

/// The mask that a word of five digits 0 and 1 writes, the first digit for the first card, or none.
#[tactic(auto, unfolding(crate::specs::Reading::hold_of))]
pub(crate) fn read_hold(word: &[u8]) -> Option<u8>
    ensures { result ≡ hold_of word.now }
{
    if word.len() != HELD_CARDS {
        return None;
    }
    let first = read_bit(word[0])?;
    let second = read_bit(word[1])?;
    let third = read_bit(word[2])?;
    let fourth = read_bit(word[3])?;
    let fifth = read_bit(word[4])?;
    Some(first + 2 * second + 4 * third + 8 * fourth + 16 * fifth)
}

/// The bit that a digit writes, or none.
fn read_bit(digit: u8) -> Option<u8>
    ensures value { result ≡ bit_of digit }
    ensures range { IfSome result (λ b. b ≤ 1) }
{
    match digit {
        ZERO => Some(0),
        ONE => Some(1),
        _ => None,
    }
}
