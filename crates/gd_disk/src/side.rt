//! The two copies on a disk.

/// One of the two copies: a stands first on the disk, and b behind it.
#[derive(Clone, Copy, PartialEq, Eq, Debug)]
pub enum Side {
    /// The first.
    A,
    /// The second.
    B,
}
