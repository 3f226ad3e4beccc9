//! What no clause of gd_words says: that the command line takes options as docs/COMMANDS.md says. Each row of it with its
//! options in each place, at the ends of its numbers, and words that are nearly of a row.

use gd_base::What;
use gd_words::{Command, Words, WordsError, read_words};

/// A command, with borrowed names.
enum Said {
    Init(&'static str),
    Trial,
    Run(&'static str),
    Show(What, &'static str),
    Check(&'static str),
    Soak(u64, u64),
}

/// Words, the command that they say, the setup's name and the seed.
#[rattlefmt::skip]
const ROWS: &[(&[&str], Said, Option<&str>, u64)] = &[
    // Each row alone.
    (&["init", "image"], Said::Init("image"), None, 1),
    (&["trial"], Said::Trial, None, 1),
    (&["run", "image"], Said::Run("image"), None, 1),
    (&["show", "meters", "image"], Said::Show(What::Meters, "image"), None, 1),
    (&["show", "state", "image"], Said::Show(What::State, "image"), None, 1),
    (&["show", "recall", "image"], Said::Show(What::Recall, "image"), None, 1),
    (&["show", "events", "image"], Said::Show(What::Events, "image"), None, 1),
    (&["show", "order", "image"], Said::Show(What::Order, "image"), None, 1),
    (&["check", "image"], Said::Check("image"), None, 1),
    (&["soak", "1000", "7"], Said::Soak(1000, 7), None, 1),
    // An empty name, and names that are words of rows.
    (&["init", ""], Said::Init(""), None, 1),
    (&["run", "trial"], Said::Run("trial"), None, 1),
    (&["show", "state", ""], Said::Show(What::State, ""), None, 1),
    (&["check", "two words"], Said::Check("two words"), None, 1),
    (&["check", "-"], Said::Check("-"), None, 1),
    // The ends of the numbers.
    (&["soak", "1", "0"], Said::Soak(1, 0), None, 1),
    (&["soak", "100000", "18446744073709551615"], Said::Soak(100_000, u64::MAX), None, 1),
    (&["trial", "--seed", "0"], Said::Trial, None, 0),
    (&["trial", "--seed", "18446744073709551615"], Said::Trial, None, u64::MAX),
    // Options in each place, and with `=`.
    (&["--setup", "file", "run", "image"], Said::Run("image"), Some("file"), 1),
    (&["run", "--setup", "file", "image"], Said::Run("image"), Some("file"), 1),
    (&["run", "image", "--setup", "file"], Said::Run("image"), Some("file"), 1),
    (&["--setup=file", "run", "image"], Said::Run("image"), Some("file"), 1),
    (&["run", "--setup=file", "image"], Said::Run("image"), Some("file"), 1),
    (&["run", "image", "--setup=file"], Said::Run("image"), Some("file"), 1),
    (&["run", "image", "--setup=a=b"], Said::Run("image"), Some("a=b"), 1),
    (&["--seed", "5", "trial"], Said::Trial, None, 5),
    (&["--seed=5", "trial"], Said::Trial, None, 5),
    (&["trial", "--seed=5"], Said::Trial, None, 5),
    (&["--seed", "5", "trial", "--setup", "file"], Said::Trial, Some("file"), 5),
    (&["--setup=file", "soak", "--seed=5", "2", "3"], Said::Soak(2, 3), Some("file"), 5),
    (&["show", "--seed", "5", "meters", "--setup", "file", "image"], Said::Show(What::Meters, "image"), Some("file"), 5),
    (&["trial", "--setup="], Said::Trial, Some(""), 1),
    (&["trial", "--setup", ""], Said::Trial, Some(""), 1),
    (&["trial", "--setup", "trial"], Said::Trial, Some("trial"), 1),
    // `--` ends the options.
    (&["--", "trial"], Said::Trial, None, 1),
    (&["trial", "--"], Said::Trial, None, 1),
    (&["check", "--", "--seed"], Said::Check("--seed"), None, 1),
    (&["--seed", "5", "--", "check", "-x"], Said::Check("-x"), None, 5),
    (&["check", "--", "--"], Said::Check("--"), None, 1),
];

/// Words of no row.
#[rattlefmt::skip]
const NO_ROWS: &[&[&str]] = &[
    // None, other words, and words that are written otherwise.
    &[],
    &[""],
    &["help"],
    &["serve", "image", "2000"],
    &["Trial"],
    &["trial "],
    &["tria"],
    &["trials"],
    &["show", "meter", "image"],
    &["show", "Meters", "image"],
    &["show", "", "image"],
    &["image", "init"],
    // A word too few or too many.
    &["init"],
    &["run"],
    &["check"],
    &["show"],
    &["show", "meters"],
    &["soak"],
    &["soak", "1000"],
    &["trial", "x"],
    &["trial", ""],
    &["init", "image", "image"],
    &["run", "image", ""],
    &["check", "image", "image"],
    &["show", "meters", "image", "image"],
    &["soak", "1000", "7", "1"],
    &["trial", "--", "--"],
    // Numbers out of their ranges, or written otherwise.
    &["soak", "0", "7"],
    &["soak", "100001", "7"],
    &["soak", "18446744073709551616", "7"],
    &["soak", "1000", "18446744073709551616"],
    &["soak", "1000", "100000000000000000000"],
    &["soak", "+1000", "7"],
    &["soak", "-1000", "7"],
    &["soak", "--", "-1000", "7"],
    &["soak", "01000", "7"],
    &["soak", "1000", "07"],
    &["soak", "1000", "00"],
    &["soak", "1000", ""],
    &["soak", "", "7"],
    &["soak", "1000", "7 "],
    &["soak", "1000", "7x"],
    &["soak", "1e3", "7"],
    &["soak", "1_000", "7"],
    &["trial", "--seed", "18446744073709551616"],
    &["trial", "--seed", "+5"],
    &["trial", "--seed", "-5"],
    &["trial", "--seed=-5"],
    &["trial", "--seed", "05"],
    &["trial", "--seed", "00"],
    &["trial", "--seed", ""],
    &["trial", "--seed="],
    &["trial", "--seed", "x"],
    // Options with no value, twice, unknown or shortened.
    &["trial", "--seed"],
    &["trial", "--setup"],
    &["trial", "--setup", "--seed", "5"],
    &["trial", "--seed", "5", "--seed", "5"],
    &["trial", "--seed=5", "--seed", "6"],
    &["trial", "--setup", "file", "--setup", "file"],
    &["trial", "--help"],
    &["--help"],
    &["-h"],
    &["trial", "-h"],
    &["--version"],
    &["-V"],
    &["trial", "--other"],
    &["trial", "--set", "file"],
    &["trial", "--command", "trial"],
    &["trial", "--Seed", "5"],
    &["trial", "-seed", "5"],
    &["trial", "-s", "5"],
    &["check", "-x"],
    &["--seed", "5"],
    &["--"],
];

/// Whether the words say the command, the setup's name and the seed.
fn say(words: &Words, said: &Said, setup: Option<&str>, seed: u64) -> bool {
    let setup_is = match (&words.setup, setup) {
        (None, None) => true,
        (Some(name), Some(setup)) => name.as_str() == setup,
        _ => false,
    };
    setup_is && words.seed == seed && is_command(&words.command, said)
}

/// Whether it is the command.
fn is_command(command: &Command, said: &Said) -> bool {
    match (command, said) {
        (Command::Init { image }, Said::Init(name)) => image.as_str() == *name,
        (Command::Trial, Said::Trial) => true,
        (Command::Run { image }, Said::Run(name)) => image.as_str() == *name,
        (Command::Show { what, image }, Said::Show(shown, name)) => what == shown
            && image.as_str() == *name,
        (Command::Check { image }, Said::Check(name)) => image.as_str() == *name,
        (Command::Soak { count, seed }, Said::Soak(items, from)) => count == items && seed == from,
        _ => false,
    }
}

/// Each row is read as what it says.
#[test]
fn reads_each_row(rt: HostRuntime) {
    for (words, said, setup, seed) in ROWS {
        match read_words(rt.alloc(), *words) {
            Ok(words) => assert!(rt; say(&words, said, *setup, *seed)),
            Err(_) => panic!(rt; "words of a row are refused"),
        }
    }
}

/// Words of no row are refused.
#[test]
fn refuses_other_words(rt: HostRuntime) {
    for words in NO_ROWS {
        match read_words(rt.alloc(), *words) {
            Ok(_) => panic!(rt; "words of no row are taken"),
            Err(error) => assert!(rt; error == WordsError::Usage),
        }
    }
}
