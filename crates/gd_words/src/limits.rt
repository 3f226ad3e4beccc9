//! The limits of the numbers among the words. docs/COMMANDS.md has them.

/// The fewest items of a soak.
pub const LEAST_ITEMS: u64 = 1;

/// The most items of a soak.
pub const MOST_ITEMS: u64 = 100_000;

/// The seed where the words give none.
pub const DEFAULT_SEED: u64 = 1;

// Each of them is fixed by the commands.
const _: () = prove!(LEAST_ITEMS == 1);

const _: () = prove!(MOST_ITEMS == 100_000);

const _: () = prove!(DEFAULT_SEED == 1);
