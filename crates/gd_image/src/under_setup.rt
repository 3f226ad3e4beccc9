//! Whether what was read keeps the rules that name the setup.

ghost use Rattle.std.specs.Prelude.{◌≡◌, ◌||◌, IsTrue, not};
ghost use Rattle.std.specs.List.{list_all};
ghost use Rattle.gd_base.specs.declared.play.StageOpen.{StageOpen};
ghost use Rattle.gd_base.specs.Games.Stage.{is_stage};
ghost use Rattle.gd_base.specs.Payloads.ViewRules.{is_coins, is_whole_coins as is_whole_coins_of, is_open_as, is_play_record, is_possible, is_possible_under as is_possible_under_setup};
ghost use Rattle.gd_image.specs.Plays.{has_ended, goes_on};
ghost use Rattle.gd_image.specs.Read.{read_view};

use crate::all_of::all_of;
use crate::read_fields::ReadFields;
use gd_base::{Order, OrderKind, PlayRecord, Setup, StageOpen};
use gd_games::played;
use gd_recall::Recall;

/// Whether an order of this kind may be over so many cents: the hopper pays whole coins.
fn is_whole_coins(setup: &Setup, kind: OrderKind, amount: u64) -> bool
    ensures { result ≡ is_whole_coins_of setup.now kind amount }
{
    match kind {
        OrderKind::Printer => true,
        OrderKind::Hopper => amount % u64::from(setup.coin) == 0,
    }
}

/// Whether the open order is over what its device can pay.
fn is_payable(setup: &Setup, order: Option<Order>) -> bool
    ensures { result ≡ is_coins setup.now order }
{
    match order {
        None => true,
        Some(order) => is_whole_coins(setup, order.kind, order.amount),
    }
}

/// Whether a play may be over in this stage: it has ended, or was taken in its gamble stage.
fn may_be_over(phase: StageOpen) -> bool
    ensures { result ≡ (is_stage phase StageOpen.Ended || is_stage phase StageOpen.Gamble) }
{
    phase == StageOpen::Ended || phase == StageOpen::Gamble
}

/// Whether a play isn't over in this stage.
fn is_going_on(phase: StageOpen) -> bool
    ensures { result ≡ not (is_stage phase StageOpen.Ended) }
{
    phase != StageOpen::Ended
}

/// Whether a finished play has the wager of its bet, choices that its stages allow in order, and the win of these, and
/// may be over.
fn is_finished(setup: &Setup, play: &PlayRecord) -> bool
    requires { IsTrue (is_play_record play.now) }
    ensures { result ≡ has_ended setup.now play.now }
{
    match played(setup, play) {
        Some(phase) => may_be_over(phase),
        None => false,
    }
}

/// Whether the open play has the wager of its bet, choices that its stages allow in order, and the win of these, and
/// isn't over.
fn is_open(setup: &Setup, play: &PlayRecord) -> bool
    requires { IsTrue (is_play_record play.now) }
    ensures { result ≡ goes_on setup.now play.now }
{
    match played(setup, play) {
        Some(phase) => is_going_on(phase),
        None => false,
    }
}

/// Whether no play is open, or one that keeps the rules of the setup.
fn may_be_open(setup: &Setup, play: &Option<PlayRecord>) -> bool
    requires { IsTrue (is_open_as is_play_record play.now) }
    ensures { result ≡ is_open_as (goes_on setup.now) play.now }
{
    match play {
        None => true,
        Some(play) => is_open(setup, play),
    }
}

/// Whether each finished play keeps the rules of the setup.
fn are_finished(setup: &Setup, recall: &Recall) -> bool
    requires { IsTrue (list_all is_play_record recall.now.lists.plays) }
    ensures { result ≡ list_all (has_ended setup.now) recall.now.lists.plays }
{
    for i in 0..recall.play_count() as u8 {
        match recall.play(i) {
            Some(play) => {
                if !is_finished(setup, &play) {
                    return false;
                }
            }
            None => return true,
        }
    }
    true
}

/// Whether what was read keeps the rules that name the setup. It keeps all others.
pub(crate) fn is_possible_under(setup: &Setup, fields: &ReadFields, recall: &Recall) -> bool
    requires { IsTrue (is_possible (read_view fields.now recall.now.lists)) }
    ensures { result ≡ is_possible_under_setup setup.now (read_view fields.now recall.now.lists) }
{
    all_of(&[
        is_payable(setup, fields.parts.payout.open_order()),
        are_finished(setup, recall),
        may_be_open(setup, &fields.parts.open_play),
    ])
}
