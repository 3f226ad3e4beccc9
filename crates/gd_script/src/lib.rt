//! What the lines of a script say. docs/FORMATS.md has the grammar.
#![tactic(auto)]

mod events;
mod fields;
mod generating;
mod item;
mod items;
mod keyword;
pub mod laws;
mod limits;
mod named;
mod names;
mod printing;
mod reading;
mod tables;
mod words;

pub use gd_disk::Side;
pub use generating::generate;
pub use item::{Item, LineFault, OrderWord};
pub use limits::{
    LAST_PLACE, LEAST_CUT, LEAST_PICK, LINE_LEN, MOST_BET, MOST_CUT, MOST_GENERATED, MOST_MASK,
    MOST_NUMBER,
};
pub use printing::print_item;
pub use reading::read_line;
