//! A script: its bytes, its lines, and the lines carried out one after another.

pub(crate) mod carrying;
pub(crate) mod reader;
