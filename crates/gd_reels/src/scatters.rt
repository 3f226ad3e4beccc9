//! The scatters of a window.

ghost use Rattle.std.specs.Prelude.{◌≡◌, ◌≤◌, ◌==◌, count_by};
ghost use Rattle.gd_base.specs.Games.Chance.{scatter_count as scatter_count_of};

use crate::windows::Window;

/// How many letters of a window are S, for which W doesn't stand.
pub fn scatter_count(window: &Window) -> u8
    ensures count { result ≡ scatter_count_of window.now.rows }
    ensures most { result ≤ 15 }
{
    scatters_in(&window.rows[0]) + scatters_in(&window.rows[1]) + scatters_in(&window.rows[2])
}

/// How many letters of a row are S.
fn scatters_in(row: &[u8; 5]) -> u8
    ensures count { result ≡ count_by (λ l. l == 83) row.now }
    ensures most { result ≤ 5 }
{
    let count = row.iter().filter(|letter| **letter == b'S').count();
    count as u8
}
