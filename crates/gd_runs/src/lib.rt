//! What the rows of whole trials share: runs of the program over what is in memory, and what they leave.
#![tactic(auto)]

pub mod draws;
pub mod inputs;
pub mod left;
pub mod locks;
pub mod runs;
