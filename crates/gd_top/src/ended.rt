//! What a run gives back.

use super::status::Status;
use arrayvec::ArrayVec;

/// The numbers of the offers, counted from 1, in which cuts of unit call came, in order.
pub type Falls = ArrayVec<u32, 256>;

/// How a run over a core that was handed in ended, and what else was handed in.
#[derive(Drop)]
pub struct Carried<L, W> {
    pub status: Status,
    /// Those of the run.
    pub falls: Falls,
    /// The laboratory, as the run left it.
    pub lab: L,
    pub draws: W,
}

/// How a run of the program ended, and what was handed in.
#[derive(Drop)]
pub struct Ended<L, D, W> {
    pub status: Status,
    /// Those of the run.
    pub falls: Falls,
    /// The laboratory, as the run left it.
    pub lab: L,
    /// The plain disk. A trial makes no call on it.
    pub disk: D,
    pub draws: W,
}
