//! Tests in a row.

ghost use Rattle.std.specs.Prelude.{◌≡◌, ◌≤◌, ◌-◌, length};
ghost use Rattle.std.specs.List.{list_all};
ghost use Rattle.gd_base.specs.Judging.Product.{same_numbers};
ghost use Rattle.gd_base.specs.Payloads.Reading.{part};

/// Whether all tests hold.
pub(crate) fn all_of(tests: &[bool]) -> bool
    ensures { result ≡ list_all (λ b. b) tests.now }
{
    tests.iter().all(|test| *test)
}

/// Whether two rows of bytes are the same.
pub(crate) fn are_same(bytes: &[u8], others: &[u8]) -> bool
    ensures { result ≡ same_numbers bytes.now others.now }
{
    bytes == others
}

/// Whether two rows of bytes are the same between two places.
pub(crate) fn are_same_between(bytes: &[u8], others: &[u8], from: usize, to: usize) -> bool
    requires order { from ≤ to }
    requires bytes { to ≤ length bytes.now }
    requires others { to ≤ length others.now }
    ensures { result ≡ same_numbers (part from (to - from) bytes.now) (part from (to - from) others.now) }
{
    are_same(&bytes[from..to], &others[from..to])
}
