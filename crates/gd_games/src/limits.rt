//! The limit of a setup's file.

/// The most bytes of a setup's file.
pub const MOST_FILE_LEN: usize = 65_536;
