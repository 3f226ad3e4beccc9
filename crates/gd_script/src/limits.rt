//! The limits of lines and of their fields, and the bytes that part and begin lines. docs/FORMATS.md has the grammar.

use gd_disk::COPY_LEN;

/// The most bytes of a line, its LF not among them.
pub const LINE_LEN: usize = 120;

/// The greatest number of a field: 2^64 - 1.
pub const MOST_NUMBER: u64 = u64::MAX;

/// The greatest bet of a line, in credits. Which bets a game takes is the machine's to judge.
pub const MOST_BET: u8 = 255;

/// The least number of a door that can be picked.
pub const LEAST_PICK: u8 = 1;

/// The fewest calls or syncs after which an armed cut comes.
pub const LEAST_CUT: u32 = 1;

/// The most calls or syncs after which an armed cut comes.
pub const MOST_CUT: u32 = 100_000;

/// The last place in a copy, from 0.
pub const LAST_PLACE: u64 = COPY_LEN as u64 - 1;

/// The greatest byte that is combined with one of a copy.
pub const MOST_MASK: u8 = 255;

/// The items that a soak run can have: `generate` gives those of the places below.
pub const MOST_GENERATED: u64 = 100_000;

/// The most digits of a number.
pub(crate) const NUMBER_LEN: usize = 20;

/// The most letters of a word that isn't a number.
pub(crate) const WORD_LEN: usize = 12;

/// The byte between two words, and the first that a comment can have.
pub(crate) const SPACE: u8 = b' ';

/// The last byte that a comment can have.
pub(crate) const LAST_PRINTABLE: u8 = b'~';

/// The byte with which a comment begins.
pub(crate) const COMMENT_MARK: u8 = b'#';

/// The digit of a card that isn't held, and the one with which no longer number begins.
pub(crate) const ZERO: u8 = b'0';

/// The digit of a card that is held.
pub(crate) const ONE: u8 = b'1';

// Each of them is fixed by the formats.
const _: () = prove!(LINE_LEN == 120);

const _: () = prove!(MOST_NUMBER == 18_446_744_073_709_551_615);

const _: () = prove!(MOST_BET == 255);

const _: () = prove!(LEAST_PICK == 1);

const _: () = prove!(LEAST_CUT == 1);

const _: () = prove!(MOST_CUT == 100_000);

const _: () = prove!(LAST_PLACE == 17_456);

const _: () = prove!(MOST_MASK == 255);

const _: () = prove!(MOST_GENERATED == 100_000);

const _: () = prove!(NUMBER_LEN == 20);

const _: () = prove!(WORD_LEN == 12);

const _: () = prove!(SPACE == 32);

const _: () = prove!(LAST_PRINTABLE == 126);

const _: () = prove!(COMMENT_MARK == 35);

const _: () = prove!(ZERO == 48);

const _: () = prove!(ONE == 49);
