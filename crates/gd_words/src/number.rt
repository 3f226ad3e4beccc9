//! Numbers in decimal.

ghost use Rattle.std.specs.Prelude.{◌≡◌, ◌<◌, ◌↔◌, ◌^◌, ◌≢◌, length, slice_index, IsTrue, Some, decimal, ℕ};
ghost use Rattle.gd_words.specs.Numbers.{items_of, number_of};

use crate::limits::{LEAST_ITEMS, MOST_ITEMS};

/// The sign that no number has.
const PLUS: u8 = b'+';

/// The digit with which no longer number begins.
const ZERO: u8 = b'0';

/// The number below 2^64 that the text writes in decimal, or none. A sign and a leading zero make it none.
pub(crate) fn read_number(text: &str) -> Option<u64>
    ensures value { result ≡ number_of text.now }
    // The round trip.
    ensures exact { (n : ℕ) → (result ≡ Some n) ↔ ((n < 2 ^ 64) × (text.now ≡ decimal n)) }
{
    if !starts_plainly(text) {
        return None;
    }
    text.parse::<u64>().ok()
}

/// Whether the text begins as a number does: with no plus, and with no zero but for `0` itself.
fn starts_plainly(text: &str) -> bool
    ensures { IsTrue result ↔ ((0 < length text.now) × (slice_index text.now 0 ≢ PLUS)
        × (slice_index text.now 0 ≡ ZERO → length text.now ≡ 1)) }
{
    match text.as_bytes() {
        [] => false,
        [PLUS, ..] => false,
        [ZERO, _, ..] => false,
        _ => true,
    }
}

/// The number of items that the text says, or none.
pub(crate) fn read_items(text: &str) -> Option<u64>
    ensures { result ≡ items_of text.now }
{
    let items = read_number(text)?;
    if items < LEAST_ITEMS {
        return None;
    }
    if items > MOST_ITEMS {
        return None;
    }
    Some(items)
}
