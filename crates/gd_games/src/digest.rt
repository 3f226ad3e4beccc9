//! The digest of a setup.

ghost use Rattle.std.specs.Prelude.{◌≡◌, ◌≤◌, ◌++◌, ◌∷◌, [], List, ℕ, flat_map, take};
ghost use Rattle.gd_base.specs.Payloads.Bytes.{two, four};
ghost use Rattle.gd_games.specs.Digest.{digest_of, flag, limits_bytes, payout_bytes, reels_bytes, poker_bytes};

use gd_base::Setup;
use sha2::{Digest, Sha256};

/// SHA-256 of the fields of a setup in a row, of its bills those that are taken. docs/FORMATS.md has the row.
#[tactic(auto, unfolding(crate::specs::Digest::digest_of))]
pub fn setup_digest(setup: &Setup) -> [u8; 32]
    ensures digest { result ≡ digest_of setup.now }
{
    let mut hasher = Sha256::new();
    hash_limits(&mut hasher, setup);
    hash_payout(&mut hasher, setup);
    hash_reels(&mut hasher, setup);
    hash_poker(&mut hasher, setup);
    hasher.finalize()
}

/// Hashes the limits of amounts and the bills that are taken.
fn hash_limits(hasher: &mut Sha256, setup: &Setup)
    ensures { (m : List ℕ) → ⟦<Sha256 as Digest>⟧.holds hasher.old m
        → ⟦<Sha256 as Digest>⟧.holds hasher.new (m ++ limits_bytes setup.now) }
{
    hash_short(hasher, setup.denom);
    hash_number(hasher, setup.credit_limit);
    hash_number(hasher, setup.handpay_limit);
    hash_number(hasher, setup.gamble_limit);
    hasher.update(&[setup.bill_count]);
    let taken = usize::from(setup.bill_count);
    hash_numbers(hasher, &setup.bills[..taken]);
}

/// Hashes what is said of coins, the hopper and vouchers.
fn hash_payout(hasher: &mut Sha256, setup: &Setup)
    ensures { (m : List ℕ) → ⟦<Sha256 as Digest>⟧.holds hasher.old m
        → ⟦<Sha256 as Digest>⟧.holds hasher.new (m ++ payout_bytes setup.now) }
{
    hash_number(hasher, setup.coin);
    hash_flag(hasher, setup.hopper);
    hash_number(hasher, setup.hopper_limit);
    hash_number(hasher, setup.voucher_limit);
}

/// Hashes what is said of the reels.
fn hash_reels(hasher: &mut Sha256, setup: &Setup)
    ensures { (m : List ℕ) → ⟦<Sha256 as Digest>⟧.holds hasher.old m
        → ⟦<Sha256 as Digest>⟧.holds hasher.new (m ++ reels_bytes setup.now) }
{
    hash_flag(hasher, setup.reels_enabled);
    hash_strips(hasher, &setup.strips);
    hash_pays(hasher, &setup.reel_pays);
    hash_shorts(hasher, &setup.prizes);
}

/// Hashes what is said of poker.
fn hash_poker(hasher: &mut Sha256, setup: &Setup)
    ensures { (m : List ℕ) → ⟦<Sha256 as Digest>⟧.holds hasher.old m
        → ⟦<Sha256 as Digest>⟧.holds hasher.new (m ++ poker_bytes setup.now) }
{
    hash_flag(hasher, setup.poker_enabled);
    hash_shorts(hasher, &setup.poker_pays);
}

/// Hashes a number in two bytes.
fn hash_short(hasher: &mut Sha256, n: u16)
    ensures { (m : List ℕ) → ⟦<Sha256 as Digest>⟧.holds hasher.old m
        → ⟦<Sha256 as Digest>⟧.holds hasher.new (m ++ two n) }
{
    hasher.update(&n.to_be_bytes());
}

/// Hashes a number in four bytes.
fn hash_number(hasher: &mut Sha256, n: u32)
    ensures { (m : List ℕ) → ⟦<Sha256 as Digest>⟧.holds hasher.old m
        → ⟦<Sha256 as Digest>⟧.holds hasher.new (m ++ four n) }
{
    hasher.update(&n.to_be_bytes());
}

/// Hashes a byte that is 1 or 0.
fn hash_flag(hasher: &mut Sha256, is_set: bool)
    ensures { (m : List ℕ) → ⟦<Sha256 as Digest>⟧.holds hasher.old m
        → ⟦<Sha256 as Digest>⟧.holds hasher.new (m ++ flag is_set ∷ []) }
{
    if is_set {
        hasher.update(&[1]);
    } else {
        hasher.update(&[0]);
    }
}

/// Hashes numbers in two bytes each.
fn hash_shorts(hasher: &mut Sha256, numbers: &[u16])
    ensures { (m : List ℕ) → ⟦<Sha256 as Digest>⟧.holds hasher.old m
        → ⟦<Sha256 as Digest>⟧.holds hasher.new (m ++ flat_map two numbers.now) }
{
    for number in numbers {
        hash_short(hasher, *number);
    }
}

/// Hashes numbers in four bytes each.
fn hash_numbers(hasher: &mut Sha256, numbers: &[u32])
    ensures { (m : List ℕ) → ⟦<Sha256 as Digest>⟧.holds hasher.old m
        → ⟦<Sha256 as Digest>⟧.holds hasher.new (m ++ flat_map four numbers.now) }
{
    for number in numbers {
        hash_number(hasher, *number);
    }
}

/// Hashes the letters of each reel.
fn hash_strips(hasher: &mut Sha256, strips: &[[u8; 32]; 5])
    ensures { (m : List ℕ) → ⟦<Sha256 as Digest>⟧.holds hasher.old m
        → ⟦<Sha256 as Digest>⟧.holds hasher.new (m ++ flat_map (λ s. s) strips.now) }
{
    hasher.update(&strips[0]);
    hasher.update(&strips[1]);
    hasher.update(&strips[2]);
    hasher.update(&strips[3]);
    hasher.update(&strips[4]);
}

/// Hashes what each symbol pays, in two bytes a number.
fn hash_pays(hasher: &mut Sha256, pays: &[[u16; 3]; 7])
    ensures { (m : List ℕ) → ⟦<Sha256 as Digest>⟧.holds hasher.old m
        → ⟦<Sha256 as Digest>⟧.holds hasher.new (m ++ flat_map (flat_map two) pays.now) }
{
    for own in pays {
        hash_shorts(hasher, own);
    }
}
