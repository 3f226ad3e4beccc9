//! Words taken apart.

ghost use Rattle.std.specs.Prelude.{◌≡◌, option_map, IfErr, IfOk, None, Some, Err};
ghost use Rattle.gd_words.specs.CommandLine.{texts};
ghost use Rattle.gd_words.specs.Meaning.{said, seed_of, words_of};
ghost use Rattle.gd_words.specs.Places.{places_of};
ghost use Rattle.gd_words.specs.Rows.{Reads};
ghost use Rattle.gd_words.specs.Table.{Says};
ghost use Rattle.gd_words.specs.declared.words.Words.{Words};

use crate::command_line::{Given, take_words};
use crate::limits::DEFAULT_SEED;
use crate::name::Name;
use crate::number::read_number;
use crate::rows::read_command;
use crate::words::{Words, WordsError};
use std::alloc::Global;

/// What the words say, which come without the program's name. Usage comes exactly where they are in no row of
/// docs/COMMANDS.md, and OutOfMemory for want of memory alone.
pub fn read_words(alloc: Global, words: &[&str]) -> Result<Words, WordsError>
    ensures taken { IfOk result (λ w. words_of (texts words.now) ≡ Some w) }
    ensures usage { result ≡ Err WordsError.Usage → words_of (texts words.now) ≡ None }
    // The same by the table of rows.
    ensures says { IfOk result (Says (texts words.now)) }
    ensures no_row { result ≡ Err WordsError.Usage → (w : Words) → ¬ (Says (texts words.now) w) }
{
    let given = take_words(alloc, words)?;
    read_given(alloc, given)
}

/// What the places say. Usage comes where they meet no row.
#[tactic(auto, unfolding(crate::specs::Meaning::said))]
fn read_given(alloc: Global, given: Given) -> Result<Words, WordsError>
    ensures { Reads (said (places_of given.entry)) result }
{
    let Some(seed) = read_seed(given.seed) else {
        return Err(WordsError::Usage);
    };
    let command = read_command(alloc, given.command, given.x, given.y)?;
    let setup = read_setup(alloc, given.setup)?;
    Ok(Words {
        command,
        setup,
        seed,
    })
}

/// The seed that is given, the default one where none is, or none where it is no number.
fn read_seed(given: Option<&str>) -> Option<u64>
    ensures { result ≡ seed_of (option_map (λ w. w.now) given.entry) }
{
    match given {
        None => Some(DEFAULT_SEED),
        Some(text) => read_number(text),
    }
}

/// The name of the setup file, if one is given.
fn read_setup(alloc: Global, given: Option<&str>) -> Result<Option<Name>, WordsError>
    ensures name { IfOk result (λ n. n ≡ option_map (λ w. w.now) given.entry) }
    ensures memory { IfErr result (λ e. e ≡ WordsError.OutOfMemory) }
{
    match given {
        None => Ok(None),
        Some(text) => {
            let name = Name::new(alloc, text)?;
            Ok(Some(name))
        }
    }
}
