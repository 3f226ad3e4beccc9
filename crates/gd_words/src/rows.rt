//! The rows of the command line.

ghost use Rattle.std.specs.Prelude.{◌≡◌, option_map};
ghost use Rattle.gd_words.specs.Rows.{bare_row, command_of, image_row, pair_row, row_of, Reads};

use crate::keyword::Keyword;
use crate::name::Name;
use crate::names::{read_keyword, read_what};
use crate::number::{read_items, read_number};
use crate::words::{Command, WordsError};
use std::alloc::Global;

/// The command that the positionals say. Usage comes where they meet no row.
pub(crate) fn read_command(
    alloc: Global,
    command: Option<&str>,
    x: Option<&str>,
    y: Option<&str>,
) -> Result<Command, WordsError>
    ensures { Reads (command_of (option_map (λ w. w.now) command.entry) (option_map (λ w. w.now) x.entry)
        (option_map (λ w. w.now) y.entry)) result }
{
    let Some(word) = command else {
        return Err(WordsError::Usage);
    };
    let Some(keyword) = read_keyword(word) else {
        return Err(WordsError::Usage);
    };
    read_row(alloc, keyword, x, y)
}

/// The command that the keyword says with the words behind it.
fn read_row(
    alloc: Global,
    keyword: Keyword,
    x: Option<&str>,
    y: Option<&str>,
) -> Result<Command, WordsError>
    ensures { Reads (row_of keyword (option_map (λ w. w.now) x.entry) (option_map (λ w. w.now) y.entry)) result }
{
    match (x, y) {
        (None, None) => read_bare_row(keyword),
        (Some(x), None) => read_image_row(alloc, keyword, x),
        (Some(x), Some(y)) => read_pair_row(alloc, keyword, x, y),
        (None, Some(_)) => Err(WordsError::Usage),
    }
}

/// The command that the keyword says alone.
fn read_bare_row(keyword: Keyword) -> Result<Command, WordsError>
    ensures { Reads (bare_row keyword) result }
{
    match keyword {
        Keyword::Trial => Ok(Command::Trial),
        _ => Err(WordsError::Usage),
    }
}

/// The command that the keyword says with the name of an image.
fn read_image_row(alloc: Global, keyword: Keyword, image: &str) -> Result<Command, WordsError>
    ensures { Reads (image_row keyword image.now) result }
{
    match keyword {
        Keyword::Init => {
            let image = Name::new(alloc, image)?;
            Ok(Command::Init { image })
        }
        Keyword::Run => {
            let image = Name::new(alloc, image)?;
            Ok(Command::Run { image })
        }
        Keyword::Check => {
            let image = Name::new(alloc, image)?;
            Ok(Command::Check { image })
        }
        _ => Err(WordsError::Usage),
    }
}

/// The command that the keyword says with two words behind it.
fn read_pair_row(alloc: Global, keyword: Keyword, x: &str, y: &str) -> Result<Command, WordsError>
    ensures { Reads (pair_row keyword x.now y.now) result }
{
    match keyword {
        Keyword::Show => read_show(alloc, x, y),
        Keyword::Soak => read_soak(x, y),
        _ => Err(WordsError::Usage),
    }
}

/// `show WHAT IMAGE`.
fn read_show(alloc: Global, what: &str, image: &str) -> Result<Command, WordsError>
    ensures { Reads (pair_row Keyword.Show what.now image.now) result }
{
    let Some(what) = read_what(what) else {
        return Err(WordsError::Usage);
    };
    let image = Name::new(alloc, image)?;
    Ok(Command::Show { what, image })
}

/// `soak N SEED`.
fn read_soak(count: &str, seed: &str) -> Result<Command, WordsError>
    ensures { Reads (pair_row Keyword.Soak count.now seed.now) result }
{
    let Some(count) = read_items(count) else {
        return Err(WordsError::Usage);
    };
    let Some(seed) = read_number(seed) else {
        return Err(WordsError::Usage);
    };
    Ok(Command::Soak { count, seed })
}
