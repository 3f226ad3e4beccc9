//! What the reels show and pay, by a setup and the random words of a play. docs/FORMATS.md says which word decides
//! what.
#![tactic(auto)]

mod line;
mod prizes;
mod scatters;
mod windows;

pub use line::line_pay;
pub use prizes::prize;
pub use scatters::scatter_count;
pub use windows::Window;
pub use windows::shown::window;
