//! Numbers in bytes, the highest byte first, and pieces of bytes at a place.

ghost use Rattle.std.specs.Prelude.{◌≡◌, ◌≤◌, ◌+◌, ◌*◌, length, flat_map};
ghost use Rattle.gd_base.specs.Payloads.Bytes.{eight};
ghost use Rattle.gd_base.specs.Payloads.Reading.{number_at};
ghost use Rattle.gd_recall.specs.Pieces.{put_at};

use byteorder::{BigEndian, ByteOrder};

/// The number in the eight bytes at a place.
#[tactic(auto, unfolding(gd_base::specs::Payloads::Reading::number_at))]
pub(crate) fn number_at(bytes: &[u8], place: usize) -> u64
    requires { place + 8 ≤ length bytes.now }
    ensures { result ≡ number_at place bytes.now }
{
    let mut number = [0; 8];
    number.copy_from_slice(&bytes[place..place + 8]);
    u64::from_be_bytes(number)
}

/// Puts bytes in the place of those that stand there.
pub(crate) fn put_bytes(into: &mut [u8], place: usize, bytes: &[u8])
    requires { place + length bytes.now ≤ length into.old }
    ensures { into.new ≡ put_at place bytes.now into.old }
{
    into[place..place + bytes.len()].copy_from_slice(bytes);
}

/// Puts a number into the eight bytes at a place.
pub(crate) fn put_number(into: &mut [u8], place: usize, n: u64)
    requires { place + 8 ≤ length into.old }
    ensures { into.new ≡ put_at place (eight n) into.old }
{
    BigEndian::write_u64(&mut into[place..place + 8], n);
}

/// Puts numbers in a row from a place on, eight bytes each.
pub(crate) fn put_numbers(into: &mut [u8], place: usize, numbers: &[u64])
    requires { place + 8 * length numbers.now ≤ length into.old }
    ensures { into.new ≡ put_at place (flat_map eight numbers.now) into.old }
{
    for i in 0..numbers.len() {
        put_number(into, place + 8 * i, numbers[i]);
    }
}
