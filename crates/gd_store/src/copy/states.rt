//! What the two copies of a disk are found to be.

/// Why a copy isn't sound: the first of these that applies.
#[derive(Clone, Copy, PartialEq, Eq, Debug, Drop)]
pub enum Why {
    /// Its gate isn't open.
    Shut,
    /// Its header isn't that of the layout, in name, version or page count.
    BadHeader,
    /// The seal isn't the digest of the header and the kept digests.
    BadRoot,
    /// The lowest page whose kept digest isn't its digest.
    BadPage(u8),
}

/// What a copy is found to be.
#[derive(Clone, Copy, PartialEq, Eq, Debug, Drop)]
pub enum CopyState {
    /// It is as it was sealed, at this sequence.
    Sound(u64),
    Bad(Why),
}

/// The states of the two copies of a disk.
#[derive(Clone, Copy, PartialEq, Eq, Debug, Drop)]
pub struct Found {
    pub a: CopyState,
    pub b: CopyState,
}

/// Of one page: for each copy, whether the page has its digest.
#[derive(Clone, Copy, PartialEq, Eq, Debug, Drop)]
pub struct PageState {
    pub a: bool,
    pub b: bool,
}
