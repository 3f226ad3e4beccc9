//! The options and the positionals of the command line.

ghost use Rattle.std.specs.Prelude.{◌≡◌, false, IfErr, IfOk};
ghost use Rattle.clap.specs.Words.{app_of, found_of, kind_of, rows_of, rule_of};
ghost use Rattle.gd_words.specs.CommandLine.{bare, command_line, needed, option, place, places, places_found, texts, IsTaken};
ghost use Rattle.gd_words.specs.Places.{places_of};

use crate::words::WordsError;
use clap::error::ErrorKind;
use clap::{Arg, ArgAction, ArgMatches, Command, Error};
use std::alloc::{AllocError, Global};

/// What stands in the places of the command line, not yet read.
#[derive(Clone, Copy)]
pub(crate) struct Given<'a> {
    /// The first positional.
    pub(crate) command: Option<&'a str>,
    /// The second.
    pub(crate) x: Option<&'a str>,
    /// The third.
    pub(crate) y: Option<&'a str>,
    /// The value of `--setup`.
    pub(crate) setup: Option<&'a str>,
    /// The value of `--seed`.
    pub(crate) seed: Option<&'a str>,
}

/// A positional that may be left out.
fn place<'a>(alloc: Global, id: &'a str) -> Arg<'a>
    ensures rule { rule_of result ≡ place id.entry.now }
    ensures local { result.global ≡ false }
{
    Arg::new(alloc, id).action(ArgAction::Set)
}

/// A positional that has to be there.
fn needed<'a>(alloc: Global, id: &'a str) -> Arg<'a>
    ensures rule { rule_of result ≡ needed id.entry.now }
    ensures local { result.global ≡ false }
{
    place(alloc, id).required(true)
}

/// An option with one value.
fn option<'a>(alloc: Global, id: &'a str) -> Arg<'a>
    ensures rule { rule_of result ≡ option id.entry.now }
    ensures local { result.global ≡ false }
{
    place(alloc, id).long(id)
}

/// The command without its positionals and options. The words come without the program's name, and nothing asks for
/// help.
fn bare<'a>(alloc: Global) -> Command<'a>
    ensures { app_of result ≡ bare }
{
    Command::new(alloc, "cabinet")
        .no_binary_name(true)
        .disable_help_flag(true)
}

/// The command line, as clap takes it.
fn command_line<'a>(alloc: Global) -> Result<Command<'a>, AllocError>
    ensures { IfOk result (λ c. app_of c ≡ command_line) }
{
    let command = bare(alloc).arg(needed(alloc, "command"))?;
    let command = command.arg(place(alloc, "x"))?;
    let command = command.arg(place(alloc, "y"))?;
    let command = command.arg(option(alloc, "setup"))?;
    command.arg(option(alloc, "seed"))
}

/// What the words put into the places. Usage comes exactly where the command line doesn't take them.
pub(crate) fn take_words<'a>(alloc: Global, words: &'a [&'a str]) -> Result<Given<'a>, WordsError>
    ensures taken { IfOk result (λ g. IsTaken (texts words.entry.now)) }
    ensures places { IfOk result (λ g. places_of g ≡ places (texts words.entry.now)) }
    ensures usage { IfErr result (λ e. e ≡ WordsError.Usage → ¬ (IsTaken (texts words.entry.now))) }
{
    let line = match command_line(alloc) {
        Ok(line) => line,
        Err(_) => return Err(WordsError::OutOfMemory),
    };
    match line.try_get_matches_from(words) {
        Ok(matches) => Ok(given_of(&matches)),
        Err(error) => Err(cause_of(&error)),
    }
}

/// The values of the matches.
fn given_of<'a>(matches: &ArgMatches<'a>) -> Given<'a>
    ensures { places_of result ≡ places_found (rows_of (found_of matches.now)) }
{
    let command = matches.get_str("command");
    let x = matches.get_str("x");
    let y = matches.get_str("y");
    let setup = matches.get_str("setup");
    let seed = matches.get_str("seed");
    Given {
        command,
        x,
        y,
        setup,
        seed,
    }
}

/// Why words weren't taken.
fn cause_of(error: &Error) -> WordsError
    ensures { result ≡ WordsError.Usage → ¬ (kind_of error.now ≡ ErrorKind.OutOfMemory) }
{
    if error.kind() == ErrorKind::OutOfMemory {
        WordsError::OutOfMemory
    } else {
        WordsError::Usage
    }
}
