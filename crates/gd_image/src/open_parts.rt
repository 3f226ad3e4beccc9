//! Whether the order, the handpay and the play that were read as open keep the rules that no setup names.

ghost use Rattle.std.specs.Prelude.{◌≡◌, ◌&&◌, IsTrue, is_some, option_copied};
ghost use Rattle.gd_base.specs.Games.Stage.{is_bet as is_bet_of};
ghost use Rattle.gd_base.specs.Payloads.ViewRules.{has_number as has_number_of, is_amount, is_placed as is_placed_at, is_play_record, is_open_as, is_small_order as is_small, is_some_handpay as is_held, not_both};

use crate::all_of::all_of;
use gd_base::{
    Game, Handpay, MOST_AMOUNT, MOST_POKER_BET, MOST_REELS_BET, Order, OrderKind, PlayRecord,
};
use gd_recall::is_recorded_play;

/// Whether an order of this kind may be over so many cents.
fn is_amount(kind: OrderKind, amount: u64) -> bool
    ensures { result ≡ is_amount kind amount }
{
    match kind {
        OrderKind::Printer => amount >= 1 && amount <= u64::from(MOST_AMOUNT),
        OrderKind::Hopper => amount >= 1,
    }
}

/// Whether the open order is over an amount that it may have.
pub(crate) fn is_small_order(order: Option<Order>) -> bool
    ensures { result ≡ is_small order }
{
    match order {
        None => true,
        Some(order) => is_amount(order.kind, order.amount),
    }
}

/// Whether the open order has the number of the latest.
pub(crate) fn has_number(orders: u64, order: Option<Order>) -> bool
    ensures { result ≡ has_number_of orders order }
{
    match order {
        None => true,
        Some(order) => order.number == orders && orders >= 1,
    }
}

/// Whether the open handpay is over something.
pub(crate) fn is_some_handpay(handpay: Option<Handpay>) -> bool
    ensures { result ≡ is_held handpay }
{
    match handpay {
        None => true,
        Some(handpay) => handpay.amount >= 1,
    }
}

/// Whether at most one of three is open.
pub(crate) fn is_one_open(order: bool, handpay: bool, play: bool) -> bool
    ensures { result ≡ (not_both order handpay && not_both order play && not_both handpay play) }
{
    !(order && handpay) && !(order && play) && !(handpay && play)
}

/// Whether a bet is one of its game.
fn is_bet(game: Game, bet: u8) -> bool
    ensures { result ≡ is_bet_of game bet }
{
    match game {
        Game::Reels => bet >= 1 && bet <= MOST_REELS_BET,
        Game::Poker => bet >= 1 && bet <= MOST_POKER_BET,
    }
}

/// Whether the record of a play keeps its rules.
pub(crate) fn is_whole_record(play: &PlayRecord) -> bool
    ensures { result ≡ is_play_record play.now }
{
    all_of(&[is_bet(play.game, play.bet), is_recorded_play(play)])
}

/// Whether the record of the open play keeps its rules.
pub(crate) fn is_open_record(play: &Option<PlayRecord>) -> bool
    ensures { result ≡ is_open_as is_play_record play.now }
{
    match play {
        None => true,
        Some(play) => is_whole_record(play),
    }
}

/// Whether the open play has a place among so many entries, and no balance after it yet.
pub(crate) fn is_open_placed(play: &Option<PlayRecord>, count: u64) -> bool
    ensures { result ≡ is_open_as (is_placed_at count) play.now }
{
    match play {
        None => true,
        Some(play) => play.place >= 1 && play.place <= count && play.after == 0,
    }
}
