//! Games and setups: where a play stands by its words and choices, the built-in setup, the digest of a setup, and its
//! file. docs/FORMATS.md has the tables, the file and the bytes that are hashed.
#![tactic(auto)]

mod digest;
mod fault;
mod faults;
mod gambling;
mod limits;
mod plays;
mod poker;
mod reading;
mod reels;
mod rules;
mod setups;
mod stages;
mod types;
mod values;

pub use digest::setup_digest;
pub use fault::{SetupError, SetupFault};
pub use limits::MOST_FILE_LEN;
pub use plays::played;
pub use reading::read_setup;
pub use setups::built_in;
pub use stages::MOST_WIN;
pub use stages::shown::stage;
