//! The two sealed copies on a disk: their bytes, where they stand, and how they are written.

pub(crate) mod changing;
pub(crate) mod layout;
pub(crate) mod sealing;
mod states;
pub(crate) mod writing;

pub use layout::{LAYOUT, Layout, MOST_SEQUENCE};
pub use states::{CopyState, Found, PageState, Why};
