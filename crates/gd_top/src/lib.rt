//! The whole program: a script is carried out on a memory, and its report written.
#![tactic(auto)]

mod command;
mod core_call;
mod ended;
mod halt;
mod image;
mod item;
mod laws;
mod memory;
mod program;
mod report;
mod script;
mod status;
mod top_call;

pub use core_call::carry;
pub use ended::{Carried, Ended, Falls};
pub use gd_words::read_words;
pub use laws::{all_rules_kept, example_reports, nothing_lost, one_legal_history};
pub use program::run_program;
pub use status::Status;
pub use top_call::cabinet;
