//! Laws of the grammar, and of the items of a soak run.

mod generated;
mod grammar;

pub use generated::{few_cuts, soak_items};
pub use grammar::{one_item, printable_lines, reads_back, reads_the_grammar};
