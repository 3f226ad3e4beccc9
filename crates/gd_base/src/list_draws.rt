//! Random words from a list.

ghost use Rattle.std.specs.Prelude.{◌≡◌, ℕ};
ghost use Rattle.gd_base.specs.Outside.Blocks.{AreListed};

use crate::play::Block;

/// Listed blocks in lap 0, and blocks of zeros past the list and in other laps.
#[derive(Drop)]
pub struct ListDraws {
    pub(crate) blocks: Vec<Block>,
    ghost are_listed: { AreListed blocks.items },
}
