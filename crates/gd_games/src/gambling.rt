//! Doubling a win by the colour of a card.

ghost use Rattle.std.specs.Prelude.{◌≡◌, ◌≤◌, ◌<◌, ◌*◌, ◌^◌, if◌then◌else◌, Some, None};
ghost use Rattle.gd_base.specs.declared.play.StageOpen.{StageOpen};
ghost use Rattle.gd_base.specs.Games.Chance.{is_red as is_red_of};
ghost use Rattle.gd_base.specs.Games.Stage.{gamble_card, gamble_stage as gamble_stage_of, is_right as is_right_of, is_stage, win_after as win_after_of};
ghost use Rattle.gd_games.specs.Turns.{could_turn_from};
ghost use Rattle.gd_games.specs.declared.stages.TheConstants.{MOST_WIN};

use gd_base::{Block, Colour, MOST_TURNS, Setup, Stage, StageOpen, pick};
use gd_cards::colour;

/// The stage of a known win, which may be gambled up to the limit and five times.
pub(crate) fn gamble_stage(setup: &Setup, turns: u8, win: u64) -> Stage
    ensures { result ≡ gamble_stage_of setup.now turns win }
{
    let phase = if win == 0 || win >= u64::from(setup.gamble_limit) || turns == MOST_TURNS {
        StageOpen::Ended
    } else {
        StageOpen::Gamble
    };
    Stage { phase, win }
}

/// The win after so many gamble turns.
pub(crate) fn win_after(words: &Block, colours: u8, base: u64, turns: u8) -> u64
    requires base { base ≤ MOST_WIN }
    requires turns { turns ≤ 5 }
    ensures { result ≡ win_after_of words.now colours base turns }
{
    let mut win = base;
    for turn in 0..turns {
        win = turned(words, colours, win, turn + 1);
    }
    win
}

/// The win after so many gamble turns, and none where the gamble stage was not open before each of them.
pub(crate) fn win_if_turned(
    setup: &Setup,
    words: &Block,
    colours: u8,
    base: u64,
    turns: u8,
) -> Option<u64>
    requires base { base ≤ MOST_WIN }
    requires turns { turns ≤ 5 }
    ensures { result ≡ (if could_turn_from setup.now words.now colours base turns
        then Some (win_after_of words.now colours base turns) else None) }
{
    let mut win = base;
    for turn in 0..turns {
        if !may_turn(setup, turn, win) {
            return None;
        }
        win = turned(words, colours, win, turn + 1);
    }
    Some(win)
}

/// Whether the gamble stage is open after so many turns, with this win.
fn may_turn(setup: &Setup, turns: u8, win: u64) -> bool
    ensures { result ≡ is_stage (gamble_stage_of setup.now turns win).phase StageOpen.Gamble }
{
    gamble_stage(setup, turns, win).phase == StageOpen::Gamble
}

/// What a turn, from 1, makes of a win: twice as much, or nothing.
fn turned(words: &Block, colours: u8, win: u64, turn: u8) -> u64
    requires low { 1 ≤ turn }
    requires high { turn ≤ 5 }
    requires win { win < 2 ^ 63 }
    ensures win { result ≡ (if is_right_of words.now colours turn then 2 * win else 0) }
    ensures most { result ≤ 2 * win }
{
    if is_right(words, colours, turn) {
        2 * win
    } else {
        0
    }
}

/// Whether the colour that is chosen in a turn, from 1, is that of the card.
fn is_right(words: &Block, colours: u8, turn: u8) -> bool
    requires low { 1 ≤ turn }
    requires high { turn ≤ 5 }
    ensures { result ≡ is_right_of words.now colours turn }
{
    let is_red = shows_red(words, turn);
    if (colours >> (turn - 1)) % 2 == 1 {
        !is_red
    } else {
        is_red
    }
}

/// Whether the card of a turn, from 1, is red.
fn shows_red(words: &Block, turn: u8) -> bool
    requires low { 1 ≤ turn }
    requires high { turn ≤ 5 }
    ensures { result ≡ is_red_of (gamble_card words.now turn) }
{
    let card = pick(words[10 + usize::from(turn)], 52);
    match colour(card) {
        Colour::Red => true,
        Colour::Black => false,
    }
}
