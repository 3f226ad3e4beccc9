//! Whether a play is one that its stages allow.

ghost use Rattle.std.specs.Prelude.{◌≡◌, ◌≤◌, ◌^◌, ◌==◌, IsTrue, nat_lt, if◌then◌else◌, Some, None};
ghost use Rattle.gd_base.specs.declared.game.Game.{Game};
ghost use Rattle.gd_base.specs.Games.Stage.{is_bet, is_choice};
ghost use Rattle.gd_base.specs.Payloads.ViewRules.{is_choice_value, is_play_record};
ghost use Rattle.gd_games.specs.Plays.{phase_if_played, stage_if_chosen as stage_if_chosen_of, stage_if_turned as stage_if_turned_of, stage_unturned as stage_unturned_of};
ghost use Rattle.gd_games.specs.declared.stages.TheConstants.{MOST_WIN};

use crate::gambling::{gamble_stage, win_if_turned};
use crate::reels::has_pick;
use crate::stages::{base_win, first_stage};
use gd_base::{Game, PlayRecord, Setup, Stage, StageOpen};

/// The stage of a play whose wager, choices and win are those of its stages, and none of any other. It takes one pass
/// over the gamble turns.
pub fn played(setup: &Setup, play: &PlayRecord) -> Option<StageOpen>
    requires record { IsTrue (is_play_record play.now) }
    ensures phase { result ≡ phase_if_played setup.now play.now }
{
    if play.wager != setup.wager(play.bet) {
        return None;
    }
    match stage_if_chosen(setup, play) {
        Some(stage) => phase_if_won(&stage, play.win),
        None => None,
    }
}

/// The open stage, where its win is this one.
fn phase_if_won(stage: &Stage, win: u64) -> Option<StageOpen>
    ensures { result ≡ (if win == stage.now.win then Some stage.now.phase else None) }
{
    if win == stage.win {
        Some(stage.phase)
    } else {
        None
    }
}

/// The stage of a play whose stages allow its choices in order.
fn stage_if_chosen(setup: &Setup, play: &PlayRecord) -> Option<Stage>
    requires bet { IsTrue (is_bet play.now.game play.now.bet) }
    requires choice { IsTrue (is_choice_value play.now.game play.now.choice) }
    requires turns { play.now.turns ≤ 5 }
    requires colours { IsTrue (nat_lt play.now.colours (2 ^ play.now.turns)) }
    ensures stage { result ≡ stage_if_chosen_of setup.now play.now }
{
    if !may_choose(setup, play) {
        return None;
    }
    match base_win(setup, play.game, play.bet, &play.words, play.choice) {
        Some(base) => stage_if_turned(setup, play, base),
        None => stage_unturned(play),
    }
}

/// The stage of a play whose win before any gamble isn't known, so that no turn may have come.
fn stage_unturned(play: &PlayRecord) -> Option<Stage>
    ensures stage { result ≡ stage_unturned_of play.now }
{
    if play.turns == 0 {
        Some(Stage {
            phase: first_stage(play.game),
            win: 0,
        })
    } else {
        None
    }
}

/// The stage of a play whose win before any gamble is known, where each of its turns could come.
fn stage_if_turned(setup: &Setup, play: &PlayRecord, base: u64) -> Option<Stage>
    requires base { base ≤ MOST_WIN }
    requires turns { play.now.turns ≤ 5 }
    ensures stage { result ≡ stage_if_turned_of setup.now play.now base }
{
    match win_if_turned(setup, &play.words, play.colours, base, play.turns) {
        Some(win) => Some(gamble_stage(setup, play.turns, win)),
        None => None,
    }
}

/// Whether the stages of a play allow its pick or hold.
fn may_choose(setup: &Setup, play: &PlayRecord) -> bool
    requires { IsTrue (is_choice_value play.now.game play.now.choice) }
    ensures { result ≡ is_choice setup.now play.now.game play.now.words play.now.choice }
{
    match play.game {
        Game::Reels => may_pick(setup, play),
        Game::Poker => true,
    }
}

/// Whether a play of the reels has no pick, or one that its words allow.
fn may_pick(setup: &Setup, play: &PlayRecord) -> bool
    requires { IsTrue (is_choice_value Game.Reels play.now.choice) }
    ensures { result ≡ is_choice setup.now Game.Reels play.now.words play.now.choice }
{
    match play.choice {
        None => true,
        Some(_) => has_pick(setup, &play.words),
    }
}
