//! Cards of five-card draw: a deal, a replacement, and the rank of a hand. docs/FORMATS.md says which word decides
//! what.
#![tactic(auto)]

mod colours;
mod dealing;
mod deck;
mod hand;
mod ranking;

pub use colours::colour;
pub use dealing::{deal, replace};
pub use gd_base::{Colour, Rank};
pub use hand::Hand;
pub use ranking::rank;
