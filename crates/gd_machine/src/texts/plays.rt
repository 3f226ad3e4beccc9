//! The lines of a play, open or ended.

ghost use Rattle.std.specs.Prelude.{◌≡◌, ◌≤◌, ◌+◌, ◌++◌, IsTrue, codes, decimal, length, option_copied};
ghost use Rattle.arrayvec.specs.ArrayString.{array_string_len};
ghost use Rattle.gd_base.specs.Payloads.ViewRules.{is_open_as, is_play_record};
ghost use Rattle.gd_base.specs.Texts.OfViews.{ended_lines, game_lines, lines_of_open, open_lines, play_body, play_head, stage_line};

use super::hands::{push_dealt, push_held};
use super::reels::{push_pick, push_window};
use super::turns::push_turns;
use gd_base::{Game, PlayRecord, Setup, Stage, TEXT_LEN, Text, push_number};
use gd_cards::deal;
use gd_games::stage;
use gd_reels::window;

/// Appends what a play was begun with. At most 111 bytes.
fn push_head(text: &mut Text, play: &PlayRecord)
    requires { array_string_len text.old + 111 ≤ TEXT_LEN }
    ensures bytes { text.new.bytes ≡ text.old.bytes ++ play_head play.now }
    ensures room { array_string_len text.new ≤ array_string_len text.old + 111 }
{
    text.push_str("play ");
    push_number(text, play.number);
    text.push_str(" block ");
    push_number(text, play.index);
    text.push_str(" ");
    text.push_str(play.game.name());
    text.push_str(" bet ");
    push_number(text, u64::from(play.bet));
    text.push_str(" wager ");
    push_number(text, u64::from(play.wager));
    text.push_str("\n");
}

/// Appends what the game showed, and what was chosen in it. At most 78 bytes.
fn push_game(text: &mut Text, setup: &Setup, play: &PlayRecord)
    requires record { IsTrue (is_play_record play.now) }
    requires room { array_string_len text.old + 78 ≤ TEXT_LEN }
    ensures bytes { text.new.bytes ≡ text.old.bytes ++ game_lines setup.now play.now play.now.game }
    ensures room { array_string_len text.new ≤ array_string_len text.old + 78 }
{
    match play.game {
        Game::Reels => {
            push_window(text, &window(setup, &play.words));
            push_pick(text, setup, play);
        }
        Game::Poker => {
            let dealt = deal(&play.words);
            push_dealt(text, &dealt);
            push_held(text, play, &dealt);
        }
    }
}

/// Appends what an open and an ended play have in common. At most 394 bytes.
fn push_body(text: &mut Text, setup: &Setup, play: &PlayRecord)
    requires record { IsTrue (is_play_record play.now) }
    requires room { array_string_len text.old + 394 ≤ TEXT_LEN }
    ensures bytes { text.new.bytes ≡ text.old.bytes ++ play_body setup.now play.now }
    ensures room { array_string_len text.new ≤ array_string_len text.old + 394 }
{
    push_head(text, play);
    push_game(text, setup, play);
    push_turns(text, setup, play);
}

/// Appends the line of a stage. At most 38 bytes.
fn push_stage(text: &mut Text, at: &Stage)
    requires { array_string_len text.old + 38 ≤ TEXT_LEN }
    ensures bytes { text.new.bytes ≡ text.old.bytes ++ stage_line at.now }
    ensures room { array_string_len text.new ≤ array_string_len text.old + 38 }
{
    text.push_str("stage ");
    text.push_str(at.phase.name());
    text.push_str(" win ");
    push_number(text, at.win);
    text.push_str("\n");
}

/// Appends the lines of an open play. At most 432 bytes.
fn push_open(text: &mut Text, setup: &Setup, play: &PlayRecord)
    requires record { IsTrue (is_play_record play.now) }
    requires room { array_string_len text.old + 432 ≤ TEXT_LEN }
    ensures bytes { text.new.bytes ≡ text.old.bytes ++ open_lines setup.now play.now }
    ensures room { array_string_len text.new ≤ array_string_len text.old + 432 }
{
    let shown = stage(setup, play.game, play.bet, &play.words, &play.choices());
    push_body(text, setup, play);
    push_stage(text, &shown);
}

/// Appends the lines of the open play, or another text where none is open. At most 432 bytes and that text.
pub(crate) fn push_open_or(
    text: &mut Text,
    setup: &Setup,
    play: Option<&PlayRecord>,
    otherwise: &str,
)
    requires record { IsTrue (is_open_as is_play_record (option_copied play)) }
    requires room { array_string_len text.old + 432 + length otherwise.now ≤ TEXT_LEN }
    ensures bytes { text.new.bytes ≡ text.old.bytes ++ lines_of_open setup.now otherwise.now (option_copied play.entry) }
    ensures room { array_string_len text.new ≤ array_string_len text.old + 432 + length otherwise.now }
{
    match play {
        Some(play) => push_open(text, setup, play),
        None => text.push_str(otherwise),
    }
}

/// Appends the line of what a play has won, with the balances before and after it. At most 80 bytes.
fn push_result(text: &mut Text, play: &PlayRecord)
    requires { array_string_len text.old + 80 ≤ TEXT_LEN }
    ensures bytes { text.new.bytes ≡ text.old.bytes
        ++ (codes "win " ++ decimal play.now.win ++ codes " before " ++ decimal play.now.before ++ codes " after "
        ++ decimal play.now.after ++ codes "\n") }
    ensures room { array_string_len text.new ≤ array_string_len text.old + 80 }
{
    text.push_str("win ");
    push_number(text, play.win);
    text.push_str(" before ");
    push_number(text, play.before);
    text.push_str(" after ");
    push_number(text, play.after);
    text.push_str("\n");
}

/// Appends the lines of a play that has ended. At most 474 bytes.
pub(crate) fn push_ended(text: &mut Text, setup: &Setup, play: &PlayRecord)
    requires record { IsTrue (is_play_record play.now) }
    requires room { array_string_len text.old + 474 ≤ TEXT_LEN }
    ensures bytes { text.new.bytes ≡ text.old.bytes ++ ended_lines setup.now play.now }
    ensures room { array_string_len text.new ≤ array_string_len text.old + 474 }
{
    push_body(text, setup, play);
    push_result(text, play);
}
