//! What is recalled of a history: its last finished plays, significant events, bills and vouchers. docs/FORMATS.md has
//! the records.
#![tactic(auto)]

mod list_record;
mod numbers;
mod play_record;
mod recall;
mod rows;
mod short_records;

pub use play_record::{is_recorded_play, play_image, read_play};
pub use recall::Recall;
