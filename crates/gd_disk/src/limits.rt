//! The limits of a laboratory.

/// The most cuts that are armed in it at a time.
pub const MOST_CUTS: u32 = 256;

/// The most images that it finds, one at each power-on.
pub const MOST_IMAGES: usize = 256;

/// The last of the kinds of tearing, which are counted from 0. `MemoryLab` says what each leaves.
pub const MOST_TORN: u8 = 3;

/// The byte that tearing of kind 3 leaves.
pub const TORN_BYTE: u8 = 0xA5;

const _: () = prove!(MOST_CUTS == 256);

const _: () = prove!(MOST_IMAGES == 256);

const _: () = prove!(MOST_TORN == 3);

const _: () = prove!(TORN_BYTE == 165);
