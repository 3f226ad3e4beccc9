//! Where a play stands.

ghost use Rattle.std.specs.Prelude.{◌≡◌, ◌≤◌, IsTrue, IfSome};
ghost use Rattle.gd_base.specs.Games.Stage.{are_choices, base_win as base_win_of, first_stage as first_stage_of, is_bet, stage as stage_of};
ghost use Rattle.gd_base.specs.Payloads.ViewRules.{is_choice_value};
ghost use Rattle.gd_base.specs.declared.limits.TheConstants.{MOST_TURNS};

use crate::poker::poker_win;
use crate::reels::reels_win;
use gd_base::{Block, Game, Setup, StageOpen};

/// The most cents that a play wins under any setup, in any stage that its choices reach: nine lines of 5,000 credits
/// and a prize of 5,000 for each of nine credits, at 100 cents. Only wins below 1,000,000 cents are doubled.
pub const MOST_WIN: u64 = 9_000_000;

/// The win before any gamble, in cents, once it is known.
pub(crate) fn base_win(
    setup: &Setup,
    game: Game,
    bet: u8,
    words: &Block,
    choice: Option<u8>,
) -> Option<u64>
    requires bet { IsTrue (is_bet game bet) }
    requires choice { IsTrue (is_choice_value game choice) }
    ensures win { result ≡ base_win_of setup.now game bet words.now choice }
    ensures most { IfSome result (λ win. win ≤ MOST_WIN) }
{
    match game {
        Game::Reels => reels_win(setup, bet, words, choice),
        Game::Poker => poker_win(setup, bet, words, choice),
    }
}

/// The stage of a play before its first choice.
pub(crate) fn first_stage(game: Game) -> StageOpen
    ensures { result ≡ first_stage_of game }
{
    match game {
        Game::Reels => StageOpen::Pick,
        Game::Poker => StageOpen::Hold,
    }
}

/// A module apart from the type, for their names differ only in case.
pub(crate) mod shown {
    use crate::gambling::{gamble_stage, win_after};
    use crate::stages::{MOST_WIN, base_win, first_stage};
    use gd_base::{Block, Choices, Game, Setup, Stage};

    /// Where a play stands, and its win in cents, by its words and choices. The bet is in credits, 1 to 9 on the reels
    /// and 1 to 5 in poker. The choice is one of the game: a door from 1 to 5, or a mask of at most 31. There are at
    /// most five turns. Where the stages of the play allow the choices in order, the win is at most [`MOST_WIN`].
    pub fn stage(setup: &Setup, game: Game, bet: u8, words: &Block, choices: &Choices) -> Stage
        requires bet { IsTrue (is_bet game bet) }
        requires choice { IsTrue (is_choice_value game choices.now.choice) }
        requires turns { choices.now.turns ≤ MOST_TURNS }
        ensures stage { result ≡ stage_of setup.now game bet words.now choices.now }
        ensures most { IsTrue (are_choices setup.now game bet words.now choices.now) → result.win ≤ MOST_WIN }
    {
        match base_win(setup, game, bet, words, choices.choice) {
            None => Stage {
                phase: first_stage(game),
                win: 0,
            },
            Some(base) => {
                let win = win_after(words, choices.colours, base, choices.turns);
                gamble_stage(setup, choices.turns, win)
            }
        }
    }
}
