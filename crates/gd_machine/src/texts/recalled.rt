//! The plays that are recalled.

ghost use Rattle.std.specs.Prelude.{◌≡◌, ◌≤◌, ◌+◌, ◌*◌, ◌++◌, IsTrue, flat_map};
ghost use Rattle.std.specs.List.{list_all};
ghost use Rattle.arrayvec.specs.ArrayString.{array_string_len};
ghost use Rattle.gd_base.specs.declared.records.TheConstants.{PLAYS_KEPT};
ghost use Rattle.gd_base.specs.Payloads.ViewRules.{is_play_record};
ghost use Rattle.gd_base.specs.Texts.OfViews.{ended_lines};

use super::plays::push_ended;
use gd_base::{Setup, TEXT_LEN, Text};
use gd_recall::Recall;

/// Appends the lines of the plays that have ended, the newest first. At most 474 bytes for each.
pub(crate) fn push_ended_plays(text: &mut Text, setup: &Setup, recall: &Recall)
    requires records { IsTrue (list_all is_play_record recall.now.lists.plays) }
    requires room { array_string_len text.old + 474 * PLAYS_KEPT ≤ TEXT_LEN }
    ensures bytes { text.new.bytes ≡ text.old.bytes ++ flat_map (ended_lines setup.now) recall.now.lists.plays }
    ensures room { array_string_len text.new ≤ array_string_len text.old + 474 * PLAYS_KEPT }
{
    for i in 0..recall.play_count() {
        let Some(play) = recall.play(i as u8) else {
            unreachable!();
        };
        push_ended(text, setup, &play);
    }
}
