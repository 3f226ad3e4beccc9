//! A payload of pages in two sealed copies on a disk, of which a loss of power leaves one whole.
//! docs/FORMATS.md has the bytes of a copy.
#![tactic(auto)]

mod booting;
mod checking;
mod copy;
mod laws;
mod making;
mod opening;
mod room;
mod store;

pub use booting::{Booted, boot};
pub use copy::{CopyState, Found, LAYOUT, Layout, MOST_SEQUENCE, PageState, Why};
pub use laws::altered_at_rest;
pub use making::Made;
pub use opening::Opened;
pub use room::Room;
pub use store::Store;
