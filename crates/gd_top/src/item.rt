//! What a line of a script does to the memory.

pub(crate) mod altering;
pub(crate) mod arming;
pub(crate) mod asking;
pub(crate) mod clearing;
mod emptiness;
pub(crate) mod event;
pub(crate) mod lock;
pub(crate) mod opening;
pub(crate) mod power;
