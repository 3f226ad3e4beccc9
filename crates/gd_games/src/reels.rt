//! What a play of the reels wins before any gamble.

ghost use Rattle.std.specs.Prelude.{◌≡◌, ◌≤◌, ◌*◌, IsTrue, IfSome};
ghost use Rattle.gd_base.specs.declared.game.Game.{Game};
ghost use Rattle.gd_base.specs.Games.Chance.{line_wins as line_wins_of};
ghost use Rattle.gd_base.specs.Games.Stage.{base_win, has_pick as has_pick_of, is_bet};
ghost use Rattle.gd_base.specs.Payloads.ViewRules.{is_choice_value};
ghost use Rattle.gd_games.specs.declared.stages.TheConstants.{MOST_WIN};

use gd_base::{Block, Setup};
use gd_reels::{Window, line_pay, prize, scatter_count, window};

/// The win in cents, and none while a pick is open. The window and the lines are computed once.
pub(crate) fn reels_win(setup: &Setup, bet: u8, words: &Block, choice: Option<u8>) -> Option<u64>
    requires bet { IsTrue (is_bet Game.Reels bet) }
    requires choice { IsTrue (is_choice_value Game.Reels choice) }
    ensures win { result ≡ base_win setup.now Game.Reels bet words.now choice }
    ensures most { IfSome result (λ win. win ≤ MOST_WIN) }
{
    let shown = window(setup, words);
    let lines = in_cents(setup, line_wins(setup, &shown, bet));
    match choice {
        None if scatter_count(&shown) >= 3 => None,
        None => Some(lines),
        Some(door) => {
            let won = prize(setup, words, door) * u32::from(bet);
            Some(lines + in_cents(setup, won))
        }
    }
}

/// Whether the words of a play show three scatters or more.
pub(crate) fn has_pick(setup: &Setup, words: &Block) -> bool
    ensures { result ≡ has_pick_of setup.now words.now }
{
    scatter_count(&window(setup, words)) >= 3
}

/// A win of at most nine times 5,000 credits, in cents.
pub(crate) fn in_cents(setup: &Setup, credits: u32) -> u64
    requires { credits ≤ 45000 }
    ensures cents { result ≡ credits * setup.now.denom }
    ensures most { result ≤ 4500000 }
{
    u64::from(credits) * u64::from(setup.denom)
}

/// The wins of lines 1 to the bet, in credits.
fn line_wins(setup: &Setup, shown: &Window, bet: u8) -> u32
    requires { bet ≤ 9 }
    ensures wins { result ≡ line_wins_of setup.now shown.now.rows bet }
    ensures most { result ≤ 5000 * bet }
{
    let mut wins = 0;
    for line in 0..bet {
        wins += line_pay(setup, shown, line + 1);
    }
    wins
}
