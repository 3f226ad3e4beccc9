//! What a play of poker wins before any gamble.

ghost use Rattle.std.specs.Prelude.{◌≡◌, ◌≤◌, IsTrue, IfSome};
ghost use Rattle.gd_base.specs.declared.game.Game.{Game};
ghost use Rattle.gd_base.specs.Games.Chance.{hand_pay as hand_pay_of};
ghost use Rattle.gd_base.specs.Games.Stage.{base_win, is_bet};
ghost use Rattle.gd_games.specs.declared.stages.TheConstants.{MOST_WIN};

use crate::reels::in_cents;
use gd_base::{Block, Setup};
use gd_cards::{Rank, deal, rank, replace};

/// The win in cents of the hand after a hold, and none while the hold is open.
pub(crate) fn poker_win(setup: &Setup, bet: u8, words: &Block, choice: Option<u8>) -> Option<u64>
    requires bet { IsTrue (is_bet Game.Poker bet) }
    ensures win { result ≡ base_win setup.now Game.Poker bet words.now choice }
    ensures most { IfSome result (λ win. win ≤ MOST_WIN) }
{
    match choice {
        None => None,
        Some(mask) => {
            let hand = replace(&deal(words), mask, words);
            let pay = hand_pay(setup, rank(&hand));
            Some(in_cents(setup, u32::from(pay) * u32::from(bet)))
        }
    }
}

/// What a hand pays, in credits for each credit of the bet.
fn hand_pay(setup: &Setup, hand: Rank) -> u16
    ensures pay { result ≡ hand_pay_of setup.now hand }
    ensures most { result ≤ 5000 }
{
    match hand {
        Rank::RoyalFlush => setup.poker_pays[0],
        Rank::StraightFlush => setup.poker_pays[1],
        Rank::Four => setup.poker_pays[2],
        Rank::FullHouse => setup.poker_pays[3],
        Rank::Flush => setup.poker_pays[4],
        Rank::Straight => setup.poker_pays[5],
        Rank::Three => setup.poker_pays[6],
        Rank::TwoPair => setup.poker_pays[7],
        Rank::Jacks => setup.poker_pays[8],
        Rank::Nothing => 0,
    }
}
