//! A sink that drops all that it is given.

ghost use Rattle.std.specs.Prelude.{None};

use gd_base::{Failed, Sink};

/// Takes all bytes and keeps none. It never fails.
#[derive(Drop)]
pub(crate) struct Dropped;

impl Sink for Dropped {
    ghost taken = { λ s. None };

    ghost faults = { λ s. 0 };

    fn give(&mut self, _bytes: &[u8]) -> Result<(), Failed> {
        Ok(())
    }
}
