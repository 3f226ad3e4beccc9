//! What the words of the command line say. docs/COMMANDS.md has the rows.
#![tactic(auto)]

mod command_line;
mod keyword;
mod limits;
mod name;
mod names;
mod number;
mod reading;
mod rows;
mod words;

pub use limits::{DEFAULT_SEED, LEAST_ITEMS, MOST_ITEMS};
pub use name::Name;
pub use reading::read_words;
pub use words::{Command, Words, WordsError};
