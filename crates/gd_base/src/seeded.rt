//! Random words from a seed.

ghost use Rattle.std.specs.Prelude.{◌≡◌};
ghost use Rattle.gd_base.specs.Outside.KeyStream.{key_bytes, seeded_block};

use crate::draws::Draws;
use crate::play::Block;
use rand_chacha::ChaCha20Rng;
use rand_core::{SeedableRng, utils};
use std::marker::Model;

/// The blocks of a seed, by the key stream of ChaCha20. The key is the seed's eight bytes, the highest first, and 24
/// zeros; the lap is the number of the stream, and the block of an index begins at word 32 * index of 32 bits, modulo
/// 2^68. Two words of 32 bits, the low half first, make one of the block. A contract sees them as their seed.
#[derive(Drop)]
pub struct ChaChaDraws {
    seed: u64,
}

impl Model for ChaChaDraws {
    ghost use Rattle.std.specs.Prelude.{ℕ};

    ghost Value = { ℕ };

    ghost view = { λ d. d.seed };
}

impl ChaChaDraws {
    ghost use Rattle.std.specs.Prelude.{ℕ};

    /// The blocks of this seed.
    pub fn new(seed: u64) -> Self
        ensures seed { result ≡ seed }
        ensures block_of { (lap index : ℕ) → ⟦<ChaChaDraws as Draws>⟧.block_of result lap index
            ≡ seeded_block seed lap index }
    {
        ChaChaDraws { seed }
    }
}

impl Draws for ChaChaDraws {
    ghost use Rattle.gd_base.specs.Outside.Blocks.{seeded_are};

    ghost block_of = { seeded_block };

    ghost are_blocks = { seeded_are };

    fn block(&mut self, lap: u64, index: u64) -> Block {
        block_at(self.seed, lap, index)
    }
}

// The block of a lap and an index.
fn block_at(seed: u64, lap: u64, index: u64) -> Block
    ensures { result ≡ seeded_block seed lap index }
{
    let mut rng = ChaCha20Rng::from_seed(key_of(seed));
    rng.set_stream(lap);
    rng.set_word_pos(u128::from(index) * 32);
    let mut words = [0; 16];
    for i in 0..16 {
        words[i] = utils::next_u64_via_u32(&mut rng);
    }
    words
}

// The seed's bytes, the highest first, and 24 zeros.
fn key_of(seed: u64) -> [u8; 32]
    ensures { result ≡ key_bytes seed }
{
    let mut key = [0; 32];
    key[..8].copy_from_slice(&seed.to_be_bytes());
    key
}
