//! Blocks of words, by which the tests draw.

use gd_base::Block;

/// A block by which the reels show three scatters, and the prizes are turned by two: with nine credits the second door has 450 cents.
pub(crate) fn three_scatters() -> Block {
    let mut words = [0; 16];
    words[0] = 0x3800_0000_0000_0000;
    words[2] = 0x6800_0000_0000_0000;
    words[10] = 0x6666_6666_6666_6667;
    words
}

/// A block by which the ace of clubs is dealt before the two to the five.
pub(crate) fn ace_first() -> Block {
    let mut words = [0; 16];
    words[0] = 0x3b13_b13b_13b1_3b14;
    words
}

/// A block by which the ten, jack, queen, king and ace of clubs are dealt.
pub(crate) fn royal_flush() -> Block {
    let mut words = [0; 16];
    words[0] = 0x2762_7627_6276_2763;
    words[1] = 0x2828_2828_2828_2829;
    words[2] = 0x28f5_c28f_5c28_f5c3;
    words[3] = 0x29cb_c14e_5e0a_72f1;
    words[4] = 0x2aaa_aaaa_aaaa_aaab;
    words
}
