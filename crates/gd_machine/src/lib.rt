//! The machine: its parts put together, what each event makes of them, and its texts. docs/DEFINITIONS.md says how an
//! event is judged and what it does, docs/FORMATS.md has each text.
#![tactic(auto)]

mod games;
pub mod laws;
mod machine;
mod parts;
mod texts;

pub use machine::Machine;
pub use parts::MachineParts;
