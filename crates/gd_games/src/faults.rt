//! The first rule that a setup's file breaks.

ghost use Rattle.std.specs.Prelude.{◌≡◌, ◌&&◌, codes};
ghost use Rattle.toml.specs.View.{table_view};
ghost use Rattle.gd_games.specs.File.{at_key, first_broken as first_broken_of, in_table, rows as rows_of};
ghost use Rattle.gd_games.specs.Values.{are_all_pays, are_credits, is_number, keeps};

use crate::fault::SetupFault;
use crate::rules::{
    keeps_bills, keeps_credits, keeps_limits, keeps_pays, keeps_strips, value_at, value_in,
};
use crate::types::has_types;
use gd_base::{MOST_AMOUNT, MOST_COIN, MOST_DENOM, MOST_GAMBLE_LIMIT, MOST_HOPPER_LIMIT};
use toml::Table;

/// The first rule that a table breaks.
pub(crate) fn table_fault(table: &Table) -> Option<SetupFault>
    ensures { result ≡ first_broken_of (rows_of (table_view table.now)) }
{
    first_broken(&rows(table))
}

/// The rules in their order, each with whether a table keeps it.
fn rows(table: &Table) -> [(bool, SetupFault); 11]
    ensures { result ≡ rows_of (table_view table.now) }
{
    let denom = keeps_limits(value_at(table, "denom"), 1, u32::from(MOST_DENOM));
    let credit = keeps_limits(value_at(table, "credit_limit"), 1, MOST_AMOUNT);
    let handpay = keeps_limits(value_at(table, "handpay_limit"), 1, MOST_AMOUNT);
    let gamble = keeps_limits(value_at(table, "gamble_limit"), 0, MOST_GAMBLE_LIMIT);
    let coin = keeps_limits(value_at(table, "coin"), 1, MOST_COIN);
    [
        (has_types(table), SetupFault::Key),
        (denom, SetupFault::Denom),
        (credit, SetupFault::Credit),
        (handpay, SetupFault::Handpay),
        (gamble, SetupFault::Gamble),
        (keeps_bills(value_at(table, "bills")), SetupFault::Bills),
        (coin, SetupFault::Coin),
        (keeps_payout(table), SetupFault::Payout),
        (
            keeps_strips(value_in(table, "reels", "strips")),
            SetupFault::Strips,
        ),
        (keeps_wins(table), SetupFault::Reels),
        (
            keeps_credits(value_in(table, "poker", "pays"), 9),
            SetupFault::Poker,
        ),
    ]
}

/// Whether the limits of what is paid out keep their rule.
fn keeps_payout(table: &Table) -> bool
    ensures { result ≡ (keeps (is_number 0 MOST_HOPPER_LIMIT) (at_key (codes "hopper_limit") (table_view table.now))
        && keeps (is_number 1 MOST_AMOUNT) (at_key (codes "voucher_limit") (table_view table.now))) }
{
    keeps_limits(value_at(table, "hopper_limit"), 0, MOST_HOPPER_LIMIT)
        && keeps_limits(value_at(table, "voucher_limit"), 1, MOST_AMOUNT)
}

/// Whether what the reels pay keeps its rule.
fn keeps_wins(table: &Table) -> bool
    ensures { result ≡ (keeps are_all_pays (in_table (codes "reels") (codes "pays") (table_view table.now))
        && keeps (are_credits 5) (in_table (codes "reels") (codes "prizes") (table_view table.now))) }
{
    keeps_pays(value_in(table, "reels", "pays"))
        && keeps_credits(value_in(table, "reels", "prizes"), 5)
}

/// The name of the first rule that isn't kept.
fn first_broken(rows: &[(bool, SetupFault)]) -> Option<SetupFault>
    ensures { result ≡ first_broken_of rows.now }
{
    for (is_kept, fault) in rows {
        if !*is_kept {
            return Some(*fault);
        }
    }
    None
}
