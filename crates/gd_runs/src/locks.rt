//! Lines that lock the memory, and what is behind them.

use crate::left::SHUT;
use gd_store::{CopyState, Found, Why};

/// Lines that lock the memory.
pub const LOCK: &[&str] = &["off", "alter a 0 255", "alter b 9000 1", "on"];

/// What they print as the first lines of a script.
pub const LOCK_REPORT: &[&str] = &[
    "off",
    "altered a 0",
    "altered b 9000",
    "power 2: a shut, b page 15",
    "locked",
];

/// The copies that they leave.
pub const LOST: Found = Found {
    a: SHUT,
    b: CopyState::Bad(Why::BadPage(15)),
};
