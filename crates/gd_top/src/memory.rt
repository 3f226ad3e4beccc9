//! The memory of a run, and what is counted of it.

pub(crate) mod counts;
pub(crate) mod making;

use gd_base::{Core, Draws};
use gd_cabinet::{Cabinet, Parts};
use gd_disk::Disk;

/// The most power-ons of a trial.
pub const MOST_POWER_ONS: u64 = 256;

const _: () = prove!(MOST_POWER_ONS == 256);

/// The memory of a run, between two lines.
#[derive(Drop)]
pub(crate) enum Memory<C: Core, D: Disk, W: Draws> {
    /// Open, with the power on.
    On(Cabinet<C, D, W>),
    /// Closed, with the power off.
    Off(Parts<C, D, W>),
    /// Closed, with the power on over a memory that can't be opened.
    Locked(Parts<C, D, W>),
}
