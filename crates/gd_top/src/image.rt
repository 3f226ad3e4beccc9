//! The lines of a script, carried out over an image.

pub(crate) mod carrying;
mod clearing;
mod event;
pub(crate) mod opening;
