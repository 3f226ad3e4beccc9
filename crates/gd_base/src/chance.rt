//! What a random word decides.
ghost use Rattle.std.specs.Prelude.{◌≡◌, ◌<◌};
ghost use Rattle.gd_base.specs.Games.Chance.{pick as pick_of};

/// One of n places, from 0, by a random word. The places share the 2^64 words evenly, up to one word.
pub fn pick(word: u64, n: u8) -> u8
    requires { 0 < n }
    ensures place { result ≡ pick_of word n }
    ensures below { result < n }
{
    ((u128::from(word) * u128::from(n)) >> 64) as u8
}
