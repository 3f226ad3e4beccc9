//! Draws that runs share.

use gd_base::{Block, ListDraws};
use std::alloc::Global;
use std::test::Fail;

/// A block of zeros, and that of `scatters`.
pub fn three_scatters(alloc: Global) -> Result<ListDraws, Fail> {
    Ok(ListDraws::of(vec![in alloc; [0; 16], scatters()]?))
}

/// A block by which the reels show three scatters and the prizes 2, 4, 6, 10 and 20 are turned by two.
pub fn scatters() -> Block {
    let mut words: Block = [0; 16];
    words[0] = 0x3800_0000_0000_0000;
    words[2] = 0x6800_0000_0000_0000;
    words[10] = 0x6666_6666_6666_6667;
    words
}
