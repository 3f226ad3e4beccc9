//! The texts of a machine. Each function says how many bytes it appends at most.

pub(crate) mod events;
mod hands;
pub(crate) mod plays;
pub(crate) mod recalled;
mod reels;
pub(crate) mod state;
mod turns;
