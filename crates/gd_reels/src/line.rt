//! What a line pays.

ghost use Rattle.std.specs.Prelude.{◌≡◌, ◌≤◌, ◌-◌, [], get_or, nat_lt, IsTrue};
ghost use Rattle.std.specs.List.{list_all};
ghost use Rattle.gd_base.specs.Games.Chance.{letters_on as letters_of, run_length as run_length_of, pay_of_run as pay_of, line_pay as line_pay_of};
ghost use Rattle.gd_base.specs.Setups.SetupRules.{are_small};
ghost use Rattle.gd_base.specs.declared.tables.TheConstants.{LINES};

use crate::windows::Window;
use gd_base::{LINES, SYMBOLS, Setup};

/// The win of a line, from 1 to 9, in credits: the greatest that one of the seven symbols pays on it.
pub fn line_pay(setup: &Setup, window: &Window, line: u8) -> u32
    requires low { 1 ≤ line }
    requires high { line ≤ 9 }
    ensures pay { result ≡ line_pay_of setup.now window.now.rows line }
    ensures most { result ≤ 5000 }
{
    let letters = letters_on(window, line);
    let mut best: u16 = 0;
    for place in 0..7 {
        let run = run_length(SYMBOLS[place], &letters);
        best = best.max(pay_of_run(&setup.reel_pays[place], run));
    }
    u32::from(best)
}

/// The letters on a line, from the left.
fn letters_on(window: &Window, line: u8) -> [u8; 5]
    requires low { 1 ≤ line }
    requires high { line ≤ 9 }
    ensures { result ≡ letters_of window.now.rows 0 (get_or LINES (line - 1) []) }
{
    letters_at(window, &LINES[usize::from(line - 1)])
}

/// The letters of these rows on the reels from the left.
fn letters_at(window: &Window, rows: &[u8; 5]) -> [u8; 5]
    requires { IsTrue (list_all (λ r. nat_lt r 3) rows.now) }
    ensures { result ≡ letters_of window.now.rows 0 rows.now }
{
    [
        window.rows[usize::from(rows[0])][0],
        window.rows[usize::from(rows[1])][1],
        window.rows[usize::from(rows[2])][2],
        window.rows[usize::from(rows[3])][3],
        window.rows[usize::from(rows[4])][4],
    ]
}

/// How many letters from the left are this symbol or wild.
fn run_length(symbol: u8, letters: &[u8; 5]) -> usize
    ensures length { result ≡ run_length_of symbol letters.now }
    ensures most { result ≤ 5 }
{
    letters
        .iter()
        .take_while(|letter| **letter == symbol || **letter == b'W')
        .count()
}

/// The pay of a run by the pays for three, four and five letters.
fn pay_of_run(pays: &[u16; 3], run: usize) -> u16
    requires run { run ≤ 5 }
    requires small { IsTrue (are_small pays.now) }
    ensures pay { result ≡ pay_of pays.now run }
    ensures most { result ≤ 5000 }
{
    if run < 3 { 0 } else { pays[run - 3] }
}
