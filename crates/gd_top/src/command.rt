//! The commands of the program.

pub(crate) mod check;
mod ending;
pub(crate) mod init;
pub(crate) mod refusal;
pub(crate) mod run;
pub(crate) mod setup;
pub(crate) mod show;
pub(crate) mod soak;
pub(crate) mod trial;
