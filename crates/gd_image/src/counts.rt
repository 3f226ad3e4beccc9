//! Whether numbers that were read are those of so many entries.

ghost use Rattle.std.specs.Prelude.{◌≡◌, ◌==◌, ◌&&◌, drop, map, nat_le, sum, sum_by};
ghost use Rattle.std.specs.List.{list_all};
ghost use Rattle.gd_base.specs.Payloads.ViewRules.{is_flagged_last};

use crate::all_of::all_of;
use gd_base::Reply;

/// Whether the last numbers add up to a count.
fn add_up(kept: &[(u64, Option<Reply>); 9], count: u64) -> bool
    ensures { result ≡ (sum_by (λ k. k.0) kept.now == count) }
{
    let mut left = count;
    for k in kept {
        if k.0 > left {
            return false;
        }
        left -= k.0;
    }
    left == 0
}

/// Whether each last number but 0 has a reply.
fn are_flagged(kept: &[(u64, Option<Reply>); 9]) -> bool
    ensures { result ≡ list_all is_flagged_last kept.now }
{
    kept.iter().all(|k| (k.0 == 0) == k.1.is_none())
}

/// Whether the last numbers add up to the count, and each but 0 has a reply.
pub(crate) fn are_numbered(kept: &[(u64, Option<Reply>); 9], count: u64) -> bool
    ensures { result ≡ ((sum (map (λ k. k.0) kept.now) == count) && list_all is_flagged_last kept.now) }
{
    all_of(&[add_up(kept, count), are_flagged(kept)])
}

/// Whether no number is above this one.
fn are_at_most(numbers: &[u64], most: u64) -> bool
    ensures { result ≡ list_all (λ n. nat_le n most) numbers.now }
{
    numbers.iter().all(|n| *n <= most)
}

/// Whether no total that is a number of entries is above the count of them.
pub(crate) fn are_within(totals: &[u64; 16], count: u64) -> bool
    ensures { result ≡ list_all (λ n. nat_le n count) (drop 9 totals.now) }
{
    are_at_most(&totals[9..], count)
}
