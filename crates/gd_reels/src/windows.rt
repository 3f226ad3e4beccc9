//! The window of the reels: where they stop, and what they show there.

ghost use Rattle.std.specs.Prelude.{◌≡◌, ◌+◌, ◌%◌, slice_index, IsTrue};
ghost use Rattle.std.specs.List.{list_all};
ghost use Rattle.gd_base.specs.Games.Chance.{stops as stops_of, row as row_of, window as window_of};
ghost use Rattle.gd_base.specs.Setups.SetupRules.{is_letter, are_strips};

use gd_base::{Block, pick};
/// What is shown of the reels: three rows of five letters, the top row first, each row from the left.
#[derive(Clone, Copy, PartialEq, Eq, Debug)]
pub struct Window {
    pub rows: [[u8; 5]; 3],
}

/// A module apart from the type, for their names differ only in case.
pub(crate) mod shown {
    use crate::windows::{Window, row, stops};
    use gd_base::{Block, Setup};

    /// What the reels show by words 0 to 4 of a block. Its letters are those of strips.
    pub fn window(setup: &Setup, words: &Block) -> Window
        ensures rows { result.rows ≡ window_of setup.now words.now }
        ensures letters { IsTrue (are_strips result.rows) }
    {
        let stops = stops(words);
        Window {
            rows: [
                row(&setup.strips, &stops, 0),
                row(&setup.strips, &stops, 1),
                row(&setup.strips, &stops, 2),
            ],
        }
    }
}

/// The letters so many places behind the stops, from the left.
fn row(strips: &[[u8; 32]; 5], stops: &[u8; 5], below: u8) -> [u8; 5]
    requires { IsTrue (are_strips strips.now) }
    ensures row { result ≡ row_of below strips.now stops.now }
    ensures letters { IsTrue (list_all is_letter result) }
{
    [
        letter(&strips[0], stops[0], below),
        letter(&strips[1], stops[1], below),
        letter(&strips[2], stops[2], below),
        letter(&strips[3], stops[3], below),
        letter(&strips[4], stops[4], below),
    ]
}

/// The letter so many places behind a stop. A strip goes round.
fn letter(strip: &[u8; 32], stop: u8, below: u8) -> u8
    requires { IsTrue (list_all is_letter strip.now) }
    ensures value { result ≡ slice_index strip.now ((stop + below) % 32) }
    ensures letter { IsTrue (is_letter result) }
{
    strip[(usize::from(stop) + usize::from(below)) % 32]
}

/// Where the five reels stop.
fn stops(words: &Block) -> [u8; 5]
    ensures { result ≡ stops_of words.now }
{
    [
        pick(words[0], 32),
        pick(words[1], 32),
        pick(words[2], 32),
        pick(words[3], 32),
        pick(words[4], 32),
    ]
}
