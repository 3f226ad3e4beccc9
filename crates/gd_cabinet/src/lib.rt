//! A core whose history is kept in two copies on a disk: one event is one commit.
#![tactic(auto)]

mod cabinet;
mod idling;
mod opening;
mod submitting;

pub use cabinet::{Cabinet, Parts};
use gd_base::{MOST_ENTRIES, PAYLOAD_LEN};
use gd_disk::{PAGE_COUNT, PAGE_LEN};
use gd_store::MOST_SEQUENCE;
pub use opening::{CabinetOpened, Locked, load_at};
pub use submitting::{Answer, Stop};

// A core's payload is the pages of a copy, and its count of entries the copy's sequence.
const _: () = prove!(PAYLOAD_LEN == PAGE_LEN * PAGE_COUNT);

const _: () = prove!(MOST_ENTRIES == MOST_SEQUENCE);
