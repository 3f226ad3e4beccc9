//! The totals of the meters, in one array.

ghost use Rattle.std.specs.Prelude.{◌≡◌, ◌+◌, ◌<◌, ◌++◌, ◌^◌, slice_index};
ghost use Rattle.gd_base.specs.Histories.Meters.{shown_total, with_one};
ghost use Rattle.gd_base.specs.Histories.Numbers.{meter_place};

use gd_base::Meter;

/// The totals of nine amounts and then seven counts.
pub(crate) fn totals_of(amounts: &[u64; 9], counts: &[u64; 7]) -> [u64; 16]
    ensures { result ≡ amounts.now ++ counts.now }
{
    let mut totals = [0; 16];
    totals[..9].copy_from_slice(amounts);
    totals[9..].copy_from_slice(counts);
    totals
}

/// The nine amounts and the seven counts of the totals.
pub(crate) fn parts_of(totals: &[u64; 16]) -> ([u64; 9], [u64; 7])
    ensures { result.0 ++ result.1 ≡ totals.now }
{
    let mut amounts = [0; 9];
    let mut counts = [0; 7];
    amounts.copy_from_slice(&totals[..9]);
    counts.copy_from_slice(&totals[9..]);
    (amounts, counts)
}

/// Adds an amount at a meter.
pub(crate) fn add(totals: &mut [u64; 16], meter: Meter, amount: u64)
    requires { slice_index totals.old (meter_place meter) + amount < 2 ^ 64 }
    ensures { totals.new ≡ with_one meter amount totals.old }
{
    totals[meter.place()] += amount;
}

/// What is shown of a whole total: the total modulo 10^10. So a meter rolls over in what is shown alone.
/// docs/FORMATS.md has the text of the meters.
pub fn shown(total: u64) -> u64
    ensures { result ≡ shown_total total }
{
    total % 10_000_000_000
}
