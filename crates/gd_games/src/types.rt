//! Whether a table has only keys that a setup has, each with a value of its type.

ghost use Rattle.std.specs.Prelude.{◌≡◌};
ghost use Rattle.std.specs.List.{list_all};
ghost use Rattle.std.specs.Str.{bytes_eq};
ghost use Rattle.toml.specs.View.{view, table_view};
ghost use Rattle.gd_games.specs.Kinds.{is_integer as is_integer_of, is_boolean as is_boolean_of, is_text as is_text_of, is_list_of, is_among, is_table_of};
ghost use Rattle.gd_games.specs.Kinds.{all_fit, amount_keys, fits, games_kinds, integers, limit_keys, payout_keys, pays_kinds, poker_kinds, reels_kinds, setup_kinds, symbol_keys, wins_kinds};

use toml::value::Array;
use toml::{Table, Value};

/// Whether a value is an integer.
fn is_integer(value: &Value) -> bool
    ensures { result ≡ is_integer_of (view value.now) }
{
    matches!(value, Value::Integer(_))
}

/// Whether a value is a Boolean.
fn is_boolean(value: &Value) -> bool
    ensures { result ≡ is_boolean_of (view value.now) }
{
    matches!(value, Value::Boolean(_))
}

/// Whether a value is a string.
fn is_text(value: &Value) -> bool
    ensures { result ≡ is_text_of (view value.now) }
{
    matches!(value, Value::String(_))
}

/// Whether all items are integers.
fn are_integers(items: &Array) -> bool
    ensures { result ≡ list_all (λ v. is_integer_of (view v)) items.now.items }
{
    items.iter().all(is_integer)
}

/// Whether all items are strings.
fn are_texts(items: &Array) -> bool
    ensures { result ≡ list_all (λ v. is_text_of (view v)) items.now.items }
{
    items.iter().all(is_text)
}

/// Whether a value is a list of integers.
fn is_integers(value: &Value) -> bool
    ensures { result ≡ integers (view value.now) }
{
    match value {
        Value::Array(items) => are_integers(items),
        _ => false,
    }
}

/// Whether a value is a list of strings.
fn is_texts(value: &Value) -> bool
    ensures { result ≡ is_list_of is_text_of (view value.now) }
{
    match value {
        Value::Array(items) => are_texts(items),
        _ => false,
    }
}

/// Whether a key is the letter of a symbol that pays.
fn is_symbol(key: &str) -> bool
    ensures { result ≡ is_among key.now symbol_keys }
{
    key == "W" || key == "A" || key == "B" || key == "C" || key == "D" || key == "E" || key == "F"
}

/// Whether a key of the pays of the reels has a value of its type.
fn fits_pays(key: &str, value: &Value) -> bool
    ensures { result ≡ fits pays_kinds key.now (view value.now) }
{
    if is_symbol(key) {
        is_integers(value)
    } else {
        false
    }
}

/// Whether a table has only keys of the pays of the reels, each with a value of its type.
fn are_pays(table: &Table) -> bool
    ensures { result ≡ all_fit pays_kinds (table_view table.now) }
{
    for (key, value) in table.iter() {
        if !fits_pays(key.as_str(), value) {
            return false;
        }
    }
    true
}

/// Whether a value is a table of the pays of the reels.
fn is_pays(value: &Value) -> bool
    ensures { result ≡ is_table_of pays_kinds (view value.now) }
{
    match value {
        Value::Table(table) => are_pays(table),
        _ => false,
    }
}

/// Whether a key of the reels has a value of its type.
fn fits_reels(key: &str, value: &Value) -> bool
    ensures { result ≡ fits reels_kinds key.now (view value.now) }
{
    if key == "enabled" {
        is_boolean(value)
    } else if key == "strips" {
        is_texts(value)
    } else {
        fits_wins(key, value)
    }
}

/// Whether a key of what the reels pay has a value of its type.
fn fits_wins(key: &str, value: &Value) -> bool
    ensures { result ≡ fits wins_kinds key.now (view value.now) }
{
    if key == "pays" {
        is_pays(value)
    } else if key == "prizes" {
        is_integers(value)
    } else {
        false
    }
}

/// Whether a table has only keys of the reels, each with a value of its type.
fn are_reels(table: &Table) -> bool
    ensures { result ≡ all_fit reels_kinds (table_view table.now) }
{
    for (key, value) in table.iter() {
        if !fits_reels(key.as_str(), value) {
            return false;
        }
    }
    true
}

/// Whether a value is a table of the reels.
fn is_reels(value: &Value) -> bool
    ensures { result ≡ is_table_of reels_kinds (view value.now) }
{
    match value {
        Value::Table(table) => are_reels(table),
        _ => false,
    }
}

/// Whether a key of poker has a value of its type.
fn fits_poker(key: &str, value: &Value) -> bool
    ensures { result ≡ fits poker_kinds key.now (view value.now) }
{
    if key == "enabled" {
        is_boolean(value)
    } else if key == "pays" {
        is_integers(value)
    } else {
        false
    }
}

/// Whether a table has only keys of poker, each with a value of its type.
fn are_poker(table: &Table) -> bool
    ensures { result ≡ all_fit poker_kinds (table_view table.now) }
{
    for (key, value) in table.iter() {
        if !fits_poker(key.as_str(), value) {
            return false;
        }
    }
    true
}

/// Whether a value is a table of poker.
fn is_poker(value: &Value) -> bool
    ensures { result ≡ is_table_of poker_kinds (view value.now) }
{
    match value {
        Value::Table(table) => are_poker(table),
        _ => false,
    }
}

/// Whether a key is this one.
fn is_key(key: &str, name: &str) -> bool
    ensures { result ≡ bytes_eq key.now name.now }
{
    key == name
}

/// Whether a key is that of a limit of cents.
fn is_limit(key: &str) -> bool
    ensures { result ≡ is_among key.now limit_keys }
{
    is_key(key, "credit_limit")
        || is_key(key, "handpay_limit")
        || is_key(key, "gamble_limit")
        || is_payout(key)
}

/// Whether a key is that of a limit of what is paid out.
fn is_payout(key: &str) -> bool
    ensures { result ≡ is_among key.now payout_keys }
{
    is_key(key, "hopper_limit") || is_key(key, "voucher_limit")
}

/// Whether a key is that of an amount of cents.
fn is_amount(key: &str) -> bool
    ensures { result ≡ is_among key.now amount_keys }
{
    is_key(key, "denom") || is_key(key, "coin") || is_limit(key)
}

/// Whether a key of a setup has a value of its type.
fn fits_setup(key: &str, value: &Value) -> bool
    ensures { result ≡ fits setup_kinds key.now (view value.now) }
{
    if is_amount(key) {
        is_integer(value)
    } else if key == "bills" {
        is_integers(value)
    } else if key == "hopper" {
        is_boolean(value)
    } else {
        fits_games(key, value)
    }
}

/// Whether a key of the games has a value of its type.
fn fits_games(key: &str, value: &Value) -> bool
    ensures { result ≡ fits games_kinds key.now (view value.now) }
{
    if key == "reels" {
        is_reels(value)
    } else if key == "poker" {
        is_poker(value)
    } else {
        false
    }
}

/// Whether a table has only keys of a setup, each with a value of its type.
pub(crate) fn has_types(table: &Table) -> bool
    ensures { result ≡ all_fit setup_kinds (table_view table.now) }
{
    for (key, value) in table.iter() {
        if !fits_setup(key.as_str(), value) {
            return false;
        }
    }
    true
}
