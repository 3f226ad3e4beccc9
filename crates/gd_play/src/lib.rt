//! The one open play: what the player's events make of it, on the random words that were recorded with it.
//! docs/DEFINITIONS.md says what a stage is.
#![tactic(auto)]

mod choosing;
pub mod laws;
mod paytable;
mod play_machine;

pub use paytable::Paytable;
pub use play_machine::PlayMachine;
