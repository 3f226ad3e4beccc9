//! The report.

pub(crate) mod dropped;
pub(crate) mod lines;
pub(crate) mod telling;
