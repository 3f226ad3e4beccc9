//! What the reels show, and what was picked.

ghost use Rattle.std.specs.Prelude.{◌≡◌, ◌≤◌, ◌+◌, ◌++◌, ◌∷◌, [], IsTrue, codes};
ghost use Rattle.std.specs.List.{list_all};
ghost use Rattle.arrayvec.specs.ArrayString.{array_string_len};
ghost use Rattle.gd_base.specs.declared.game.Game.{Game};
ghost use Rattle.gd_base.specs.Payloads.ViewRules.{is_choice_value};
ghost use Rattle.gd_base.specs.Setups.SetupRules.{are_strips, is_letter};
ghost use Rattle.gd_base.specs.Texts.OfViews.{pick_line, spaced_texts};

use gd_base::{PlayRecord, Setup, TEXT_LEN, Text, push_number};
use gd_reels::{Window, prize};

/// Appends a letter of the reels.
fn push_letter(text: &mut Text, letter: u8)
    requires letter { IsTrue (is_letter letter) }
    requires room { array_string_len text.old + 1 ≤ TEXT_LEN }
    ensures bytes { text.new.bytes ≡ text.old.bytes ++ letter ∷ [] }
    ensures room { array_string_len text.new ≤ array_string_len text.old + 1 }
{
    text.push(char::from(letter));
}

/// Appends a row of the window, behind a space. At most 6 bytes.
fn push_row(text: &mut Text, row: &[u8; 5])
    requires letters { IsTrue (list_all is_letter row.now) }
    requires room { array_string_len text.old + 6 ≤ TEXT_LEN }
    ensures bytes { text.new.bytes ≡ text.old.bytes ++ (codes " " ++ row.now) }
    ensures room { array_string_len text.new ≤ array_string_len text.old + 6 }
{
    text.push_str(" ");
    for letter in row {
        push_letter(text, *letter);
    }
}

/// Appends the line of the window. At most 25 bytes.
pub(crate) fn push_window(text: &mut Text, shown: &Window)
    requires letters { IsTrue (are_strips shown.now.rows) }
    requires room { array_string_len text.old + 25 ≤ TEXT_LEN }
    ensures bytes { text.new.bytes ≡ text.old.bytes ++ (codes "window" ++ spaced_texts shown.now.rows ++ codes "\n") }
    ensures room { array_string_len text.new ≤ array_string_len text.old + 25 }
{
    text.push_str("window");
    push_row(text, &shown.rows[0]);
    push_row(text, &shown.rows[1]);
    push_row(text, &shown.rows[2]);
    text.push_str("\n");
}

/// Appends the line of the pick, where there was one. At most 53 bytes.
pub(crate) fn push_pick(text: &mut Text, setup: &Setup, play: &PlayRecord)
    requires choice { IsTrue (is_choice_value Game.Reels play.now.choice) }
    requires room { array_string_len text.old + 53 ≤ TEXT_LEN }
    ensures bytes { text.new.bytes ≡ text.old.bytes ++ pick_line setup.now play.now play.now.choice }
    ensures room { array_string_len text.new ≤ array_string_len text.old + 53 }
{
    if let Some(door) = play.choice {
        let won = prize(setup, &play.words, door) * u32::from(play.bet);
        text.push_str("pick ");
        push_number(text, u64::from(door));
        text.push_str(" prize ");
        push_number(text, u64::from(won));
        text.push_str("\n");
    }
}
