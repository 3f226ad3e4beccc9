//! Whether values of a setup's file keep their rules.

ghost use Rattle.std.specs.Prelude.{◌≡◌, ◌<◌, ◌==◌, ◌&&◌, nat_le, map, option_and_then, option_map, length};
ghost use Rattle.std.specs.List.{list_all};
ghost use Rattle.toml.specs.Data.{as_table, get_member};
ghost use Rattle.toml.specs.View.{view, table_view};
ghost use Rattle.gd_base.specs.Setups.SetupRules.{is_letter as is_letter_of, rise_above};
ghost use Rattle.gd_games.specs.File.{at_key, in_table};
ghost use Rattle.gd_games.specs.Kinds.{symbol_keys};
ghost use Rattle.gd_games.specs.Values.{are_all_pays as are_all_pays_of, are_bills_in, are_credits as are_credits_of, are_five_strips, has_pays as has_pays_of};
ghost use Rattle.gd_games.specs.Values.{is_number as is_number_of, is_strip as is_strip_of, is_within as is_within_of, keeps, natural as natural_of, number_in};

use gd_base::{MOST_AMOUNT, MOST_BILLS, MOST_PAY};
use toml::value::Array;
use toml::{Table, Value};

/// The value at a key.
pub(crate) fn value_at<'a>(table: &'a Table, key: &str) -> Option<&'a Value>
    ensures { option_map (λ v. view v.now) result ≡ at_key key.now (table_view table.now) }
{
    table.get(key)
}

/// The table at a key.
fn table_at<'a>(table: &'a Table, name: &str) -> Option<&'a Table>
    ensures { option_map (λ t. table_view t.now) result ≡ option_and_then as_table (at_key name.now (table_view table.now)) }
{
    match value_at(table, name) {
        Some(value) => value.as_table(),
        None => None,
    }
}

/// The value at a key of a table that stands at a key.
pub(crate) fn value_in<'a>(table: &'a Table, name: &str, key: &str) -> Option<&'a Value>
    ensures { option_map (λ v. view v.now) result ≡ in_table name.now key.now (table_view table.now) }
{
    match table_at(table, name) {
        Some(inner) => value_at(inner, key),
        None => None,
    }
}

/// Whether a number lies between two others, or is one of them.
fn is_within(n: i64, low: u32, high: u32) -> bool
    ensures { result ≡ is_within_of low high n }
{
    i64::from(low) <= n && n <= i64::from(high)
}

/// Whether a value is a number between two others, or one of them.
fn is_number(value: &Value, low: u32, high: u32) -> bool
    ensures { result ≡ is_number_of low high (view value.now) }
{
    match value {
        Value::Integer(n) => is_within(*n, low, high),
        _ => false,
    }
}

/// Whether a value, where there is one, is a number between two others, or one of them.
pub(crate) fn keeps_limits(value: Option<&Value>, low: u32, high: u32) -> bool
    ensures { result ≡ keeps (is_number_of low high) (option_map (λ v. view v.now) value.entry) }
{
    match value {
        Some(value) => is_number(value, low, high),
        None => true,
    }
}

/// Whether all items are numbers between two others, or one of them.
fn are_numbers(items: &Array, low: u32, high: u32) -> bool
    ensures { result ≡ list_all (λ v. is_number_of low high (view v)) items.now.items }
{
    items.iter().all(|item| is_number(item, low, high))
}

/// Whether there are so many items, each a number from 0 to 5,000.
fn are_credits_in(items: &Array, count: usize) -> bool
    ensures { result ≡ ((length items.now.items == count)
        && list_all (λ v. is_number_of 0 MOST_PAY (view v)) items.now.items) }
{
    items.len() == count && are_numbers(items, 0, u32::from(MOST_PAY))
}

/// Whether a value is a list of so many numbers from 0 to 5,000.
fn are_credits(value: &Value, count: usize) -> bool
    requires { 0 < count }
    ensures { result ≡ are_credits_of count (view value.now) }
{
    match value {
        Value::Array(items) => are_credits_in(items, count),
        _ => false,
    }
}

/// Whether a value, where there is one, is a list of so many numbers from 0 to 5,000.
pub(crate) fn keeps_credits(value: Option<&Value>, count: usize) -> bool
    requires { 0 < count }
    ensures { result ≡ keeps (are_credits_of count) (option_map (λ v. view v.now) value.entry) }
{
    match value {
        Some(value) => are_credits(value, count),
        None => true,
    }
}

/// Whether there is a value, and it is a list of three numbers from 0 to 5,000.
fn has_pays(value: Option<&Value>) -> bool
    ensures { result ≡ has_pays_of (option_map (λ v. view v.now) value.entry) }
{
    match value {
        Some(value) => are_credits(value, 3),
        None => false,
    }
}

/// Whether the pays of each symbol are there.
fn have_pays(table: &Table) -> bool
    ensures { result ≡ list_all (λ key. has_pays_of (get_member key (table_view table.now))) symbol_keys }
{
    has_pays(value_at(table, "W"))
        && has_pays(value_at(table, "A"))
        && has_pays(value_at(table, "B"))
        && has_pays(value_at(table, "C"))
        && has_pays(value_at(table, "D"))
        && has_pays(value_at(table, "E"))
        && has_pays(value_at(table, "F"))
}

/// Whether a value is a table of the pays of each symbol.
fn are_all_pays(value: &Value) -> bool
    ensures { result ≡ are_all_pays_of (view value.now) }
{
    match value {
        Value::Table(table) => have_pays(table),
        _ => false,
    }
}

/// Whether a value, where there is one, is a table of the pays of each symbol.
pub(crate) fn keeps_pays(value: Option<&Value>) -> bool
    ensures { result ≡ keeps are_all_pays_of (option_map (λ v. view v.now) value.entry) }
{
    match value {
        Some(value) => are_all_pays(value),
        None => true,
    }
}

/// Whether all bytes are letters of strips.
fn are_letters(letters: &[u8]) -> bool
    ensures { result ≡ list_all is_letter_of letters.now }
{
    letters.iter().all(is_letter)
}

/// Whether a byte is a letter of strips.
fn is_letter(letter: &u8) -> bool
    ensures { result ≡ is_letter_of letter.now }
{
    matches!(
        *letter,
        b'W' | b'S' | b'A' | b'B' | b'C' | b'D' | b'E' | b'F'
    )
}

/// Whether bytes are 32 letters of strips.
fn is_strip_text(letters: &[u8]) -> bool
    ensures { result ≡ ((length letters.now == 32) && list_all is_letter_of letters.now) }
{
    letters.len() == 32 && are_letters(letters)
}

/// Whether a value is a string of 32 letters of strips.
fn is_strip(value: &Value) -> bool
    ensures { result ≡ is_strip_of (view value.now) }
{
    match value {
        Value::String(text) => is_strip_text(text.as_bytes()),
        _ => false,
    }
}

/// Whether each item is a string of 32 letters of strips.
fn are_strip_texts(items: &Array) -> bool
    ensures { result ≡ list_all (λ v. is_strip_of (view v)) items.now.items }
{
    items.iter().all(is_strip)
}

/// Whether there are five items, each a string of 32 letters of strips.
fn are_strips_in(items: &Array) -> bool
    ensures { result ≡ ((length items.now.items == 5) && list_all (λ v. is_strip_of (view v)) items.now.items) }
{
    items.len() == 5 && are_strip_texts(items)
}

/// Whether a value is a list of five strings of 32 letters of strips.
fn are_strips(value: &Value) -> bool
    ensures { result ≡ are_five_strips (view value.now) }
{
    match value {
        Value::Array(items) => are_strips_in(items),
        _ => false,
    }
}

/// Whether a value, where there is one, is a list of five strings of 32 letters of strips.
pub(crate) fn keeps_strips(value: Option<&Value>) -> bool
    ensures { result ≡ keeps are_five_strips (option_map (λ v. view v.now) value.entry) }
{
    match value {
        Some(value) => are_strips(value),
        None => true,
    }
}

/// A number from 0 on, and 0 for any other.
pub(crate) fn natural(n: i64) -> u64
    ensures { result ≡ natural_of n }
{
    if n < 0 { 0 } else { n as u64 }
}

/// The number of a value, and 0 where it is none from 0 on.
pub(crate) fn number_of(value: &Value) -> u64
    ensures { result ≡ number_in (view value.now) }
{
    match value {
        Value::Integer(n) => natural(*n),
        _ => 0,
    }
}

/// Whether each number is above the one before, and the first above 0.
fn rise(items: &Array) -> bool
    ensures { result ≡ rise_above 0 (map (λ v. number_in (view v)) items.now.items) }
{
    let mut last = 0;
    for item in items {
        let number = number_of(item);
        if number <= last {
            return false;
        }
        last = number;
    }
    true
}

/// Whether there are at most eight items, rising numbers from 1 to 100,000,000.
fn are_bills_items(items: &Array) -> bool
    ensures { result ≡ (nat_le (length items.now.items) MOST_BILLS
        && list_all (λ v. is_number_of 1 MOST_AMOUNT (view v)) items.now.items
        && rise_above 0 (map (λ v. number_in (view v)) items.now.items)) }
{
    items.len() <= MOST_BILLS && are_numbers(items, 1, MOST_AMOUNT) && rise(items)
}

/// Whether a value is a list of at most eight rising numbers from 1 to 100,000,000.
fn are_bills(value: &Value) -> bool
    ensures { result ≡ are_bills_in (view value.now) }
{
    match value {
        Value::Array(items) => are_bills_items(items),
        _ => false,
    }
}

/// Whether a value, where there is one, is a list of at most eight rising numbers from 1 to 100,000,000.
pub(crate) fn keeps_bills(value: Option<&Value>) -> bool
    ensures { result ≡ keeps are_bills_in (option_map (λ v. view v.now) value.entry) }
{
    match value {
        Some(value) => are_bills(value),
        None => true,
    }
}
