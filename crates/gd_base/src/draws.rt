//! Where the random words come from.

ghost use Rattle.std.specs.Prelude.{◌≡◌, ℕ, List};
ghost use Rattle.gd_base.specs.Outside.Blocks.{AreBlocks};

use crate::play::Block;

/// A block of 16 random words for each lap and index. A lap is the number of memories that this program run has cleared
/// before, and an index the number of plays taken and starts before in the history, so no block is used twice.
pub trait Draws {
    /// The block of a lap and an index.
    ghost block_of: { Self → ℕ → ℕ → List ℕ };

    /// Each has sixteen words of 64 bits.
    ghost are_blocks: { (draws : Self) → AreBlocks (block_of draws) };

    /// Tells a block. It can't fail, and no block changes by it.
    fn block(&mut self, lap: u64, index: u64) -> Block
        ensures block { result ≡ block_of self.old lap index }
        ensures same { (l i : ℕ) → block_of self.new l i ≡ block_of self.old l i };
}
