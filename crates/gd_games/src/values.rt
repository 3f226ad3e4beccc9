//! What values of a setup's file say, or what is built in where they are left out.

ghost use Rattle.std.specs.Prelude.{◌≡◌, ◌≤◌, ◌++◌, [], IsTrue, drop, length, map, option_map, take};
ghost use Rattle.std.specs.List.{list_all};
ghost use Rattle.toml.specs.Data.{get_member};
ghost use Rattle.toml.specs.View.{table_view, view};
ghost use Rattle.gd_base.specs.Setups.BuiltIn.{built_in_setup};
ghost use Rattle.gd_games.specs.File.{filled};
ghost use Rattle.gd_games.specs.Kinds.{symbol_keys};
ghost use Rattle.gd_games.specs.Values.{are_all_pays, are_bills_in, are_credits, are_five_strips, has_pays, is_number, is_strip, keeps};
ghost use Rattle.gd_games.specs.Values.{flag_in, number_in, numbers_in, pays_in, text_in, texts_in, value_or};

use crate::rules::{number_of, value_at};
use crate::setups::built_in;
use gd_base::{MOST_AMOUNT, MOST_PAY};
use toml::value::Array;
use toml::{Table, Value};

/// The flag of a value, where there is one.
pub(crate) fn flag_or(value: Option<&Value>, built_in: bool) -> bool
    ensures { result ≡ value_or built_in flag_in (option_map (λ v. view v.now) value.entry) }
{
    match value {
        Some(Value::Boolean(flag)) => *flag,
        Some(_) => false,
        None => built_in,
    }
}

/// The number of a value that lies between two others or is one of them.
fn number(value: &Value, low: u32, high: u32) -> u32
    requires { IsTrue (is_number low high (view value.now)) }
    ensures value { result ≡ number_in (view value.now) }
    ensures low { low ≤ result }
    ensures high { result ≤ high }
{
    number_of(value) as u32
}

/// The number of a value, where there is one. It lies between two others, or is one of them.
pub(crate) fn number_or(value: Option<&Value>, built_in: u32, low: u32, high: u32) -> u32
    requires low { low ≤ built_in }
    requires high { built_in ≤ high }
    requires rule { IsTrue (keeps (is_number low high) (option_map (λ v. view v.now) value)) }
    ensures value { result ≡ value_or built_in number_in (option_map (λ v. view v.now) value.entry) }
    ensures low { low ≤ result }
    ensures high { result ≤ high }
{
    match value {
        Some(value) => number(value, low, high),
        None => built_in,
    }
}

/// Writes the numbers of items, each from 0 to 5,000, into as many places.
fn copy_credits(items: &Array, into: &mut [u16])
    requires count { length items.now.items ≡ length into.old }
    requires rule { IsTrue (list_all (λ v. is_number 0 MOST_PAY (view v)) items.now.items) }
    ensures numbers { into.new ≡ map (λ v. number_in (view v)) items.now.items }
{
    for (place, item) in items.iter().enumerate() {
        into[place] = number(item, 0, u32::from(MOST_PAY)) as u16;
    }
}

/// Writes the numbers of a list, each from 0 to 5,000, into as many places.
fn copy_list(value: &Value, into: &mut [u16])
    requires { IsTrue (are_credits (length into.old) (view value.now)) }
    ensures numbers { into.new ≡ numbers_in (view value.now) }
{
    match value {
        Value::Array(items) => copy_credits(items, into),
        _ => {}
    }
}

/// Writes the numbers of items, each from 1 to 100,000,000, into the first places.
fn copy_amounts(items: &Array, into: &mut [u32])
    requires count { length items.now.items ≤ length into.old }
    requires rule { IsTrue (list_all (λ v. is_number 1 MOST_AMOUNT (view v)) items.now.items) }
    ensures numbers { into.new ≡ map (λ v. number_in (view v)) items.now.items ++ drop (length items.now.items) into.old }
{
    for (place, item) in items.iter().enumerate() {
        into[place] = number(item, 1, MOST_AMOUNT);
    }
}

/// The letters of a strip.
fn strip(value: &Value) -> [u8; 32]
    requires { IsTrue (is_strip (view value.now)) }
    ensures letters { result ≡ text_in (view value.now) }
{
    let mut letters = [0; 32];
    if let Value::String(text) = value {
        letters.copy_from_slice(text.as_bytes());
    }
    letters
}

/// Writes the letters of strips into as many places.
fn copy_strips(items: &Array, into: &mut [[u8; 32]])
    requires count { length items.now.items ≡ length into.old }
    requires rule { IsTrue (list_all (λ v. is_strip (view v)) items.now.items) }
    ensures strips { into.new ≡ map (λ v. text_in (view v)) items.now.items }
{
    for (place, item) in items.iter().enumerate() {
        into[place] = strip(item);
    }
}

/// Three numbers, each from 0 to 5,000.
fn three(value: &Value) -> [u16; 3]
    requires { IsTrue (are_credits 3 (view value.now)) }
    ensures numbers { result ≡ numbers_in (view value.now) }
{
    let mut credits = [0; 3];
    copy_list(value, &mut credits);
    credits
}

/// Five numbers, each from 0 to 5,000.
fn five(value: &Value) -> [u16; 5]
    requires { IsTrue (are_credits 5 (view value.now)) }
    ensures numbers { result ≡ numbers_in (view value.now) }
{
    let mut credits = [0; 5];
    copy_list(value, &mut credits);
    credits
}

/// Nine numbers, each from 0 to 5,000.
fn nine(value: &Value) -> [u16; 9]
    requires { IsTrue (are_credits 9 (view value.now)) }
    ensures numbers { result ≡ numbers_in (view value.now) }
{
    let mut credits = [0; 9];
    copy_list(value, &mut credits);
    credits
}

/// Five numbers, where there is a value.
pub(crate) fn prizes_or(value: Option<&Value>, built_in: [u16; 5]) -> [u16; 5]
    requires { IsTrue (keeps (are_credits 5) (option_map (λ v. view v.now) value)) }
    ensures { result ≡ value_or built_in numbers_in (option_map (λ v. view v.now) value.entry) }
{
    match value {
        Some(value) => five(value),
        None => built_in,
    }
}

/// Nine numbers, where there is a value.
pub(crate) fn hand_pays_or(value: Option<&Value>, built_in: [u16; 9]) -> [u16; 9]
    requires { IsTrue (keeps (are_credits 9) (option_map (λ v. view v.now) value)) }
    ensures { result ≡ value_or built_in numbers_in (option_map (λ v. view v.now) value.entry) }
{
    match value {
        Some(value) => nine(value),
        None => built_in,
    }
}

/// What a symbol pays.
fn symbol_pays(table: &Table, symbol: &str) -> [u16; 3]
    requires { IsTrue (has_pays (get_member symbol.now (table_view table.now))) }
    ensures { result ≡ value_or [] numbers_in (get_member symbol.now (table_view table.now)) }
{
    match value_at(table, symbol) {
        Some(value) => three(value),
        None => [0; 3],
    }
}

/// What each symbol pays.
fn pays(table: &Table) -> [[u16; 3]; 7]
    requires { IsTrue (list_all (λ key. has_pays (get_member key (table_view table.now))) symbol_keys) }
    ensures { result ≡ map (λ key. value_or [] numbers_in (get_member key (table_view table.now))) symbol_keys }
{
    [
        symbol_pays(table, "W"),
        symbol_pays(table, "A"),
        symbol_pays(table, "B"),
        symbol_pays(table, "C"),
        symbol_pays(table, "D"),
        symbol_pays(table, "E"),
        symbol_pays(table, "F"),
    ]
}

/// What each symbol pays, by the value of a table.
fn pays_of(value: &Value) -> [[u16; 3]; 7]
    requires { IsTrue (are_all_pays (view value.now)) }
    ensures { result ≡ pays_in (view value.now) }
{
    match value {
        Value::Table(table) => pays(table),
        _ => [[0; 3]; 7],
    }
}

/// What each symbol pays, where there is a value.
pub(crate) fn pays_or(value: Option<&Value>, built_in: [[u16; 3]; 7]) -> [[u16; 3]; 7]
    requires { IsTrue (keeps are_all_pays (option_map (λ v. view v.now) value)) }
    ensures { result ≡ value_or built_in pays_in (option_map (λ v. view v.now) value.entry) }
{
    match value {
        Some(value) => pays_of(value),
        None => built_in,
    }
}

/// The letters of five strips.
fn strips(value: &Value) -> [[u8; 32]; 5]
    requires { IsTrue (are_five_strips (view value.now)) }
    ensures { result ≡ texts_in (view value.now) }
{
    let mut strips = [[0; 32]; 5];
    if let Value::Array(items) = value {
        copy_strips(items, &mut strips);
    }
    strips
}

/// The letters of five strips, where there is a value.
pub(crate) fn strips_or(value: Option<&Value>, built_in: [[u8; 32]; 5]) -> [[u8; 32]; 5]
    requires { IsTrue (keeps are_five_strips (option_map (λ v. view v.now) value)) }
    ensures { result ≡ value_or built_in texts_in (option_map (λ v. view v.now) value.entry) }
{
    match value {
        Some(value) => strips(value),
        None => built_in,
    }
}

/// The bills that are written, zeros behind them, and how many there are.
fn bills(value: &Value) -> ([u32; 8], u8)
    requires { IsTrue (are_bills_in (view value.now)) }
    ensures values { result.0 ≡ filled (numbers_in (view value.now)) }
    ensures count { result.1 ≡ length (numbers_in (view value.now)) }
{
    let mut bills = [0; 8];
    let mut count = 0;
    if let Value::Array(items) = value {
        copy_amounts(items, &mut bills);
        count = items.len() as u8;
    }
    (bills, count)
}

/// The bills that are written, zeros behind them, and how many there are, or those that are built in.
pub(crate) fn bills_or(value: Option<&Value>) -> ([u32; 8], u8)
    requires { IsTrue (keeps are_bills_in (option_map (λ v. view v.now) value)) }
    ensures values { result.0 ≡ filled (value_or (take built_in_setup.bill_count built_in_setup.bills) numbers_in
        (option_map (λ v. view v.now) value.entry)) }
    ensures count { result.1 ≡ length (value_or (take built_in_setup.bill_count built_in_setup.bills) numbers_in
        (option_map (λ v. view v.now) value.entry)) }
{
    match value {
        Some(value) => bills(value),
        None => {
            let setup = built_in();
            let bills = setup.bills;
            (bills, setup.bill_count)
        }
    }
}
