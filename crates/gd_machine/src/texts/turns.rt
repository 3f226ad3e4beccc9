//! The turns of gamble.

ghost use Rattle.std.specs.Prelude.{◌≡◌, ◌≤◌, ◌<◌, ◌+◌, ◌*◌, ◌++◌, IsTrue, length};
ghost use Rattle.arrayvec.specs.ArrayString.{array_string_len};
ghost use Rattle.gd_base.specs.declared.limits.TheConstants.{MOST_TURNS};
ghost use Rattle.gd_base.specs.Games.Stage.{gamble_card as gamble_card_of, is_bet, win_after as win_after_of};
ghost use Rattle.gd_base.specs.Payloads.ViewRules.{is_choice_value};
ghost use Rattle.gd_base.specs.Texts.Names.{colour_name};
ghost use Rattle.gd_base.specs.Texts.OfViews.{base_of, turn_colour as turn_colour_of, turn_line, turn_lines};

use super::hands::push_card;
use gd_base::{Block, Choices, Colour, PlayRecord, Setup, TEXT_LEN, Text, pick, push_number};
use gd_games::stage;

/// The colour that was chosen in a turn, from 1.
fn turn_colour(colours: u8, turn: u8) -> Colour
    requires low { 1 ≤ turn }
    requires high { turn ≤ MOST_TURNS }
    ensures { result ≡ turn_colour_of colours turn }
{
    if (colours >> (turn - 1)) % 2 == 1 {
        Colour::Black
    } else {
        Colour::Red
    }
}

/// The name of a colour.
fn name_of_colour(colour: Colour) -> &'static str
    ensures name { result.now ≡ colour_name colour }
    ensures short { length result.now ≤ 5 }
{
    match colour {
        Colour::Red => "red",
        Colour::Black => "black",
    }
}

/// The card that a turn shows, from 1.
fn gamble_card(words: &Block, turn: u8) -> u8
    requires low { 1 ≤ turn }
    requires high { turn ≤ MOST_TURNS }
    ensures card { result ≡ gamble_card_of words.now turn }
    ensures below { result < 52 }
{
    pick(words[10 + usize::from(turn)], 52)
}

/// The win after a turn, from 1.
fn win_after(setup: &Setup, play: &PlayRecord, turn: u8) -> u64
    requires bet { IsTrue (is_bet play.now.game play.now.bet) }
    requires choice { IsTrue (is_choice_value play.now.game play.now.choice) }
    requires turn { turn ≤ MOST_TURNS }
    ensures { result ≡ win_after_of play.now.words play.now.colours (base_of setup.now play.now) turn }
{
    let choices = Choices {
        choice: play.choice,
        turns: turn,
        colours: play.colours,
    };
    stage(setup, play.game, play.bet, &play.words, &choices).win
}

/// Appends the line of a turn, from 1. At most 41 bytes.
fn push_turn(text: &mut Text, setup: &Setup, play: &PlayRecord, turn: u8)
    requires bet { IsTrue (is_bet play.now.game play.now.bet) }
    requires choice { IsTrue (is_choice_value play.now.game play.now.choice) }
    requires low { 1 ≤ turn }
    requires high { turn ≤ MOST_TURNS }
    requires room { array_string_len text.old + 41 ≤ TEXT_LEN }
    ensures bytes { text.new.bytes ≡ text.old.bytes ++ turn_line setup.now play.now turn }
    ensures room { array_string_len text.new ≤ array_string_len text.old + 41 }
{
    text.push_str("gamble ");
    text.push_str(name_of_colour(turn_colour(play.colours, turn)));
    text.push_str(" ");
    push_card(text, gamble_card(&play.words, turn));
    text.push_str(" win ");
    push_number(text, win_after(setup, play, turn));
    text.push_str("\n");
}

/// Appends the lines of the turns. At most 205 bytes.
pub(crate) fn push_turns(text: &mut Text, setup: &Setup, play: &PlayRecord)
    requires bet { IsTrue (is_bet play.now.game play.now.bet) }
    requires choice { IsTrue (is_choice_value play.now.game play.now.choice) }
    requires turns { play.now.turns ≤ MOST_TURNS }
    requires room { array_string_len text.old + 41 * MOST_TURNS ≤ TEXT_LEN }
    ensures bytes { text.new.bytes ≡ text.old.bytes ++ turn_lines setup.now play.now play.now.turns }
    ensures room { array_string_len text.new ≤ array_string_len text.old + 41 * MOST_TURNS }
{
    for turn in 0..play.turns {
        push_turn(text, setup, play, turn + 1);
    }
}
