//! A setup, read from its file.

ghost use Rattle.std.specs.Prelude.{◌≡◌, ◌≤◌, IsTrue, IfOk, IfErr, Some, None};
ghost use Rattle.gd_games.specs.declared.fault.SetupFault.{SetupFault};
ghost use Rattle.toml.specs.View.{table_view};
ghost use Rattle.gd_games.specs.declared.fault.SetupError.{SetupError};
ghost use Rattle.gd_games.specs.File.{at_key, first_broken, rows, setup_fault, HasValues, IsSetupOf, KeepsRules};
ghost use Rattle.gd_games.specs.Values.{is_number, keeps, number_in, value_or};

use crate::fault::{SetupError, SetupFault};
use crate::faults::table_fault;
use crate::limits::MOST_FILE_LEN;
use crate::rules::{value_at, value_in};
use crate::setups::built_in;
use crate::values::{bills_or, flag_or, hand_pays_or, number_or, pays_or, prizes_or, strips_or};
use gd_base::{MOST_AMOUNT, MOST_COIN, MOST_DENOM, MOST_GAMBLE_LIMIT, MOST_HOPPER_LIMIT, Setup};
use std::alloc::Global;
use toml::Table;

/// The setup that a TOML file of at most 65,536 bytes says: at each key its value, and where a key is left out the
/// built-in one. A fault is the first rule that the file breaks, in the order of docs/FORMATS.md. Want of memory says
/// nothing of the file.
pub fn read_setup(alloc: Global, bytes: &[u8]) -> Result<Setup, SetupError>
    ensures setup { IfOk result (λ s. IsSetupOf bytes.now s) }
    ensures fault { IfErr result (λ e. (f : SetupFault) → e ≡ SetupError.Fault f → setup_fault bytes.now ≡ Some f) }
{
    if bytes.len() > MOST_FILE_LEN {
        return Err(SetupError::Fault(SetupFault::Text));
    }
    let Ok(text) = std::str::from_utf8(bytes) else {
        return Err(SetupError::Fault(SetupFault::Text));
    };
    match toml::table_from_str(alloc, text) {
        Ok(table) => table_setup(&table),
        Err(error) => {
            if error.is_memory() {
                return Err(SetupError::OutOfMemory);
            }
            Err(SetupError::Fault(SetupFault::Text))
        }
    }
}

/// The number at a key, or the built-in one. It lies between two others, or is one of them.
fn limit_at(table: &Table, key: &str, built_in: u32, low: u32, high: u32) -> u32
    requires low { low ≤ built_in }
    requires high { built_in ≤ high }
    requires rule { IsTrue (keeps (is_number low high) (at_key key.now (table_view table.now))) }
    ensures value { result ≡ value_or built_in number_in (at_key key.now (table_view table.now)) }
    ensures low { low ≤ result }
    ensures high { result ≤ high }
{
    number_or(value_at(table, key), built_in, low, high)
}

/// The setup of a table that breaks no rule.
fn setup_of(table: &Table) -> Setup
    requires { KeepsRules (table_view table.now) }
    ensures { HasValues (table_view table.now) result }
{
    let own = built_in();
    let denom = limit_at(
        table,
        "denom",
        u32::from(own.denom),
        1,
        u32::from(MOST_DENOM),
    );
    let (bills, bill_count) = bills_or(value_at(table, "bills"));
    Setup {
        denom: denom as u16,
        credit_limit: limit_at(table, "credit_limit", own.credit_limit, 1, MOST_AMOUNT),
        handpay_limit: limit_at(table, "handpay_limit", own.handpay_limit, 1, MOST_AMOUNT),
        gamble_limit: limit_at(
            table,
            "gamble_limit",
            own.gamble_limit,
            0,
            MOST_GAMBLE_LIMIT,
        ),
        bills,
        bill_count,
        coin: limit_at(table, "coin", own.coin, 1, MOST_COIN),
        hopper: flag_or(value_at(table, "hopper"), own.hopper),
        hopper_limit: limit_at(
            table,
            "hopper_limit",
            own.hopper_limit,
            0,
            MOST_HOPPER_LIMIT,
        ),
        voucher_limit: limit_at(table, "voucher_limit", own.voucher_limit, 1, MOST_AMOUNT),
        reels_enabled: flag_or(value_in(table, "reels", "enabled"), own.reels_enabled),
        strips: strips_or(value_in(table, "reels", "strips"), own.strips),
        reel_pays: pays_or(value_in(table, "reels", "pays"), own.reel_pays),
        prizes: prizes_or(value_in(table, "reels", "prizes"), own.prizes),
        poker_enabled: flag_or(value_in(table, "poker", "enabled"), own.poker_enabled),
        poker_pays: hand_pays_or(value_in(table, "poker", "pays"), own.poker_pays),
    }
}

/// The setup of a table, or the first rule that it breaks.
fn table_setup(table: &Table) -> Result<Setup, SetupError>
    ensures setup { IfOk result (λ s. (first_broken (rows (table_view table.now)) ≡ None) × HasValues (table_view table.now) s) }
    ensures fault { IfErr result (λ e. (f : SetupFault) → e ≡ SetupError.Fault f → first_broken (rows (table_view table.now)) ≡ Some f) }
{
    match table_fault(table) {
        Some(fault) => Err(SetupError::Fault(fault)),
        None => Ok(setup_of(table)),
    }
}
