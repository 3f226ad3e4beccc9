//! Numbers in bytes, the highest byte first, and pieces of bytes at a place.

ghost use Rattle.std.specs.Prelude.{◌≡◌, ◌≤◌, ◌+◌, ◌*◌, length, flat_map};
ghost use Rattle.gd_base.specs.Payloads.Bytes.{two, four, eight};
ghost use Rattle.gd_base.specs.Payloads.Reading.{number_at, short_at, sixteen_at, two_at};
ghost use Rattle.gd_recall.specs.Pieces.{put_at};

use byteorder::{BigEndian, ByteOrder};

/// The number in the two bytes at a place.
#[tactic(auto, unfolding(gd_base::specs::Payloads::Reading::two_at))]
pub(crate) fn two_bytes_at(bytes: &[u8], place: usize) -> u16
    requires { place + 2 ≤ length bytes.now }
    ensures { result ≡ two_at place bytes.now }
{
    let mut number = [0; 2];
    number.copy_from_slice(&bytes[place..place + 2]);
    u16::from_be_bytes(number)
}

/// The number in the four bytes at a place.
#[tactic(auto, unfolding(gd_base::specs::Payloads::Reading::short_at))]
pub(crate) fn four_bytes_at(bytes: &[u8], place: usize) -> u32
    requires { place + 4 ≤ length bytes.now }
    ensures { result ≡ short_at place bytes.now }
{
    let mut number = [0; 4];
    number.copy_from_slice(&bytes[place..place + 4]);
    u32::from_be_bytes(number)
}

/// The number in the eight bytes at a place.
#[tactic(auto, unfolding(gd_base::specs::Payloads::Reading::number_at))]
pub(crate) fn eight_bytes_at(bytes: &[u8], place: usize) -> u64
    requires { place + 8 ≤ length bytes.now }
    ensures { result ≡ number_at place bytes.now }
{
    let mut number = [0; 8];
    number.copy_from_slice(&bytes[place..place + 8]);
    u64::from_be_bytes(number)
}

/// Sixteen numbers in a row, from a place on.
pub(crate) fn sixteen_numbers_at(bytes: &[u8], place: usize) -> [u64; 16]
    requires { place + 128 ≤ length bytes.now }
    ensures { result ≡ sixteen_at place bytes.now }
{
    [
        eight_bytes_at(bytes, place),
        eight_bytes_at(bytes, place + 8),
        eight_bytes_at(bytes, place + 16),
        eight_bytes_at(bytes, place + 24),
        eight_bytes_at(bytes, place + 32),
        eight_bytes_at(bytes, place + 40),
        eight_bytes_at(bytes, place + 48),
        eight_bytes_at(bytes, place + 56),
        eight_bytes_at(bytes, place + 64),
        eight_bytes_at(bytes, place + 72),
        eight_bytes_at(bytes, place + 80),
        eight_bytes_at(bytes, place + 88),
        eight_bytes_at(bytes, place + 96),
        eight_bytes_at(bytes, place + 104),
        eight_bytes_at(bytes, place + 112),
        eight_bytes_at(bytes, place + 120),
    ]
}

/// Puts a number into the two bytes at a place.
pub(crate) fn put_two_bytes(into: &mut [u8], place: usize, n: u16)
    requires { place + 2 ≤ length into.old }
    ensures { into.new ≡ put_at place (two n) into.old }
{
    BigEndian::write_u16(&mut into[place..place + 2], n);
}

/// Puts a number into the four bytes at a place.
pub(crate) fn put_four_bytes(into: &mut [u8], place: usize, n: u32)
    requires { place + 4 ≤ length into.old }
    ensures { into.new ≡ put_at place (four n) into.old }
{
    BigEndian::write_u32(&mut into[place..place + 4], n);
}

/// Puts a number into the eight bytes at a place.
pub(crate) fn put_eight_bytes(into: &mut [u8], place: usize, n: u64)
    requires { place + 8 ≤ length into.old }
    ensures { into.new ≡ put_at place (eight n) into.old }
{
    BigEndian::write_u64(&mut into[place..place + 8], n);
}

/// Puts numbers in a row from a place on, eight bytes each.
pub(crate) fn put_numbers(into: &mut [u8], place: usize, numbers: &[u64])
    requires { place + 8 * length numbers.now ≤ length into.old }
    ensures { into.new ≡ put_at place (flat_map eight numbers.now) into.old }
{
    for i in 0..numbers.len() {
        put_eight_bytes(into, place + 8 * i, numbers[i]);
    }
}
