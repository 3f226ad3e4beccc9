//! Blocks of a list, told one by one.

ghost use Rattle.std.specs.Prelude.{◌≡◌, ◌^◌, ℕ, IsTrue, nat_lt};
ghost use Rattle.std.specs.List.{list_all};
ghost use Rattle.gd_base.specs.Outside.Blocks.{AreListed};

use crate::draws::Draws;
use crate::list_draws::ListDraws;
use crate::play::Block;

impl ListDraws {
    ghost use Rattle.gd_base.specs.Outside.InMemory.{listed_block};

    /// These blocks, of which the first has index 0.
    pub fn of(blocks: Vec<Block>) -> Self
        ensures block_of { (lap index : ℕ) → ⟦<ListDraws as Draws>⟧.block_of result lap index
            ≡ listed_block blocks.items lap index }
    {
        all_fit(&blocks);
        ListDraws { blocks }
    }
}

impl Draws for ListDraws {
    ghost use Rattle.gd_base.specs.Outside.InMemory.{listed_block};
    ghost use Rattle.gd_base.specs.Outside.Blocks.{listed_are};

    ghost block_of = { λ d. listed_block d.blocks.items };

    ghost are_blocks = { λ d. listed_are d.blocks.items d.are_listed };

    fn block(&mut self, lap: u64, index: u64) -> Block {
        if lap == 0 && index < self.blocks.len() as u64 {
            self.blocks[index as usize]
        } else {
            [0; 16]
        }
    }
}

/// What the types of listed blocks make true of them.
fn all_fit(blocks: &[Block])
    ensures { AreListed blocks.now }
{
    for i in 0..blocks.len() {
        fits(&blocks[i]);
    }
}

/// What the type of words makes true of them.
fn fits(words: &[u64])
    ensures { IsTrue (list_all (λ w. nat_lt w (2 ^ 64)) words.now) }
{}
