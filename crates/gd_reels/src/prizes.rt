//! The prizes of the pick.

ghost use Rattle.std.specs.Prelude.{◌≡◌, ◌≤◌};
ghost use Rattle.gd_base.specs.Games.Chance.{prize as prize_of};

use gd_base::{Block, Setup, pick};

/// The prize behind a door, from 1 to 5, in credits for each credit of the bet. Word 10 places the prizes.
pub fn prize(setup: &Setup, words: &Block, door: u8) -> u32
    requires low { 1 ≤ door }
    requires high { door ≤ 5 }
    ensures prize { result ≡ prize_of setup.now words.now door }
    ensures most { result ≤ 5000 }
{
    let place = (door - 1 + pick(words[10], 5)) % 5;
    u32::from(setup.prizes[usize::from(place)])
}
