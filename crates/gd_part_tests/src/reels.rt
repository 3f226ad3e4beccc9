//! What no clause of gd_reels says: that the tables of the built-in setup are those of docs/FORMATS.md, and what some blocks show
//! and win under them.

ghost use Rattle.std.specs.Prelude.{◌<◌};

use gd_base::Block;
use gd_games::built_in;
use gd_reels::{Window, line_pay, prize, scatter_count, window};
use std::process::Abort;

/// What the nine lines of a window win, in credits.
fn wins(shown: &Window) -> [u32; 9] {
    let setup = built_in();
    let mut won = [0; 9];
    for line in 1..10u8 {
        won[usize::from(line) - 1] = line_pay(&setup, shown, line);
    }
    won
}

// ================ lines and pays

/// Windows with A on one line and S elsewhere, from line 1 to line 9: the top, middle and bottom row.
#[rattlefmt::skip]
const LINE_WINDOWS: [[[u8; 5]; 3]; 9] = [
    [*b"SSSSS", *b"AAAAA", *b"SSSSS"],
    [*b"AAAAA", *b"SSSSS", *b"SSSSS"],
    [*b"SSSSS", *b"SSSSS", *b"AAAAA"],
    [*b"ASSSA", *b"SASAS", *b"SSASS"],
    [*b"SSASS", *b"SASAS", *b"ASSSA"],
    [*b"AASSS", *b"SSASS", *b"SSSAA"],
    [*b"SSSAA", *b"SSASS", *b"AASSS"],
    [*b"SAAAS", *b"ASSSA", *b"SSSSS"],
    [*b"SSSSS", *b"ASSSA", *b"SAAAS"],
];

/// What a line of A wins where the letter on one reel is another: by the reel, from the left.
const BROKEN: [u32; 5] = [0, 0, 0, 50, 200];

/// These rows with S on one reel.
fn without_reel(rows: &[[u8; 5]; 3], reel: usize) -> Window
    requires { reel < 5 }
{
    let mut rows = *rows;
    rows[0][reel] = b'S';
    rows[1][reel] = b'S';
    rows[2][reel] = b'S';
    Window { rows }
}

#[test]
fn each_window_wins_on_its_line_alone(rt: HostRuntime) {
    for place in 0..9usize {
        let rows = LINE_WINDOWS[place];
        let mut wanted = [0; 9];
        wanted[place] = 1000;
        assert_eq!(rt; wins(&Window { rows }), wanted);
        for reel in 0..5usize {
            wanted[place] = BROKEN[reel];
            assert_eq!(rt; wins(&without_reel(&rows, reel)), wanted);
        }
    }
}

/// Letters on line 1, from the left, and what they win in credits.
#[rattlefmt::skip]
const LINE_PAYS: [(&[u8; 5], u32); 40] = [
    // Three, four and five of each letter, and two.
    (b"WWSSS", 0), (b"WWWSS", 100), (b"WWWWS", 500), (b"WWWWW", 2000),
    (b"AASSS", 0), (b"AAASS", 50), (b"AAAAS", 200), (b"AAAAA", 1000),
    (b"BBSSS", 0), (b"BBBSS", 30), (b"BBBBS", 100), (b"BBBBB", 400),
    (b"CCSSS", 0), (b"CCCSS", 20), (b"CCCCS", 60), (b"CCCCC", 200),
    (b"DDSSS", 0), (b"DDDSS", 10), (b"DDDDS", 30), (b"DDDDD", 100),
    (b"EESSS", 0), (b"EEESS", 5), (b"EEEES", 20), (b"EEEEE", 60),
    (b"FFSSS", 0), (b"FFFSS", 5), (b"FFFFS", 15), (b"FFFFF", 50),
    // S pays nothing on a line, and a run begins at the left.
    (b"SSSSS", 0), (b"SAAAA", 0), (b"AASAA", 0), (b"AAASA", 50),
    // W stands for a letter, and the greatest pay of a letter wins.
    (b"WWAAA", 1000), (b"AWWSS", 50), (b"WWWAS", 200), (b"WWWFS", 100),
    (b"AWBBB", 0), (b"WFEEE", 0), (b"WWFEE", 5), (b"FWFWA", 15),
];

#[test]
fn each_run_of_a_letter_pays(rt: HostRuntime) {
    let setup = built_in();
    for (letters, wanted) in LINE_PAYS {
        let shown = Window {
            rows: [*b"SSSSS", *letters, *b"SSSSS"],
        };
        assert_eq!(rt; line_pay(&setup, &shown, 1), wanted);
    }
}

// ================ strips

/// The letters of the reels, stop 0 first.
const LETTERS: [&[u8; 32]; 5] = [
    b"WABCDEFSABCDEFABCDEFBCDEFCDEFDEF",
    b"SFEDCBAWFEDCBAFEDCBAFEDCBFEDCFED",
    b"ADBECFWADBECFSADBECFDBECFDECFDEF",
    b"FCEBDASFCEBDAWFCEBDAFCEBDFCEDFED",
    b"CFBEADSCFBEADWCFBEADCFBEDCFEDFED",
];

/// The letters of a row, so many places behind a stop of all reels.
fn letters_at(place: usize) -> [u8; 5] {
    let mut letters = [0; 5];
    for reel in 0..5usize {
        letters[reel] = LETTERS[reel][place % 32];
    }
    letters
}

#[test]
fn each_stop_shows_the_letters_from_it_on(rt: HostRuntime) {
    for stop in 0..32usize {
        let mut words = [0; 16];
        for reel in 0..5usize {
            words[reel] = (stop as u64) << 59;
        }
        let wanted = [letters_at(stop), letters_at(stop + 1), letters_at(stop + 2)];
        assert_eq!(rt; window(&built_in(), &words).rows, wanted);
    }
}

// ================ blocks

/// The rows that a block shows are these.
fn shows(rt: &impl Abort, words: &Block, top: &[u8; 5], middle: &[u8; 5], bottom: &[u8; 5]) {
    let shown = window(&built_in(), words);
    assert_eq!(rt; shown.rows, [*top, *middle, *bottom]);
}

#[test]
fn a_block_of_zeros_wins_nothing(rt: HostRuntime) {
    let words = [0; 16];
    shows(&rt, &words, b"WSAFC", b"AFDCF", b"BEBEB");
    let shown = window(&built_in(), &words);
    assert_eq!(rt; wins(&shown), [0; 9]);
    assert_eq!(rt; scatter_count(&shown), 1);
}

#[test]
fn three_scatters_open_a_pick(rt: HostRuntime) {
    let mut words = [0; 16];
    words[0] = 0x3800_0000_0000_0000;
    words[2] = 0x6800_0000_0000_0000;
    words[10] = 0x6666_6666_6666_6667;
    shows(&rt, &words, b"SSSFC", b"AFACF", b"BEDEB");
    let setup = built_in();
    let shown = window(&setup, &words);
    assert_eq!(rt; wins(&shown), [0; 9]);
    assert_eq!(rt; scatter_count(&shown), 3);
    // Word 10 turns the prizes 2, 4, 6, 10, 20 by two.
    assert_eq!(rt; prize(&setup, &words, 1), 6);
    assert_eq!(rt; prize(&setup, &words, 2), 10);
    assert_eq!(rt; prize(&setup, &words, 3), 20);
    assert_eq!(rt; prize(&setup, &words, 4), 2);
    assert_eq!(rt; prize(&setup, &words, 5), 4);
}

#[test]
fn three_letters_from_the_left_win(rt: HostRuntime) {
    let mut words = [0; 16];
    words[0] = 0x6000_0000_0000_0000;
    words[1] = 0x3800_0000_0000_0000;
    words[2] = 0x2000_0000_0000_0000;
    shows(&rt, &words, b"EWCFC", b"FFFCF", b"AEWEB");
    assert_eq!(rt; wins(&window(&built_in(), &words))[0], 5);
}
