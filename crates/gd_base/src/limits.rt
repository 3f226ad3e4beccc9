//! The limits of amounts, histories and choices, which formats and rules name. docs/FORMATS.md has them.

/// The most entries of a history: 2^36.
pub const MOST_ENTRIES: u64 = 68_719_476_736;

/// The most cents of a bill, a voucher, a printed order and a limit of a setup, and the most that one entry adds to the
/// books.
pub const MOST_AMOUNT: u32 = 100_000_000;

/// The greatest bet on the reels, in credits. It is also the number of lines.
pub const MOST_REELS_BET: u8 = 9;

/// The greatest bet in poker, in credits.
pub const MOST_POKER_BET: u8 = 5;

/// The greatest door of a pick, from 1.
pub const MOST_PICK: u8 = 5;

/// The cards of a hand, of which each has a bit in the mask of a hold.
pub const HELD_CARDS: usize = 5;

/// The mask of all cards of a hand.
pub const MOST_HOLD: u8 = 31;

/// The most gamble turns of a play.
pub const MOST_TURNS: u8 = 5;

/// The most cents for a credit.
pub const MOST_DENOM: u16 = 100;

/// The most cents of a limit of gambles.
pub const MOST_GAMBLE_LIMIT: u32 = 1_000_000;

/// The values of bills in a setup, at most.
pub const MOST_BILLS: usize = 8;

/// The most cents of a coin.
pub const MOST_COIN: u32 = 10_000;

/// The most cents of a limit of the hopper.
pub const MOST_HOPPER_LIMIT: u32 = 100_000;

/// The most that a symbol, a prize or a hand pays, in credits.
pub const MOST_PAY: u16 = 5_000;

const _: () = prove!(MOST_ENTRIES == 1 << 36 && MOST_AMOUNT == 100_000_000);

const _: () = prove!(MOST_REELS_BET == 9 && MOST_POKER_BET == 5 && MOST_PICK == 5);

const _: () = prove!(HELD_CARDS == 5 && MOST_HOLD == 31 && MOST_TURNS == 5);

const _: () = prove!(MOST_DENOM == 100 && MOST_GAMBLE_LIMIT == 1_000_000 && MOST_BILLS == 8);

const _: () = prove!(MOST_COIN == 10_000 && MOST_HOPPER_LIMIT == 100_000 && MOST_PAY == 5_000);
