//! The payload of a machine, written and read, and the machine as a core. docs/FORMATS.md has the bytes of a payload.
#![tactic(auto)]

mod all_of;
mod calls;
mod counts;
mod fields;
mod flags;
mod kept;
mod loading;
mod numbers;
mod open_parts;
mod payouts;
mod platform;
mod possible;
mod read_fields;
mod recalled;
mod spelling;
mod sums;
mod under_setup;
mod writing;

pub use platform::Platform;
