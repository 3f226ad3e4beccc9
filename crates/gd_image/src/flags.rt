//! Flags as the bits of a byte, the first as bit 0.

ghost use Rattle.std.specs.Prelude.{◌≡◌, ◌≤◌, if◌then◌else◌};
ghost use Rattle.gd_base.specs.Payloads.Bytes.{flags};
ghost use Rattle.gd_base.specs.Payloads.Reading.{flags_of};

/// A flag in a number.
fn bit(flag: bool) -> u8
    ensures value { result ≡ (if flag then 1 else 0) }
    ensures most { result ≤ 1 }
{
    u8::from(flag)
}

/// The byte of the flags of the doors.
pub(crate) fn door_byte(doors: [bool; 4]) -> u8
    ensures { result ≡ flags doors }
{
    let [a, b, c, d] = doors;
    bit(a) + 2 * (bit(b) + 2 * (bit(c) + 2 * bit(d)))
}

/// The byte of the flags of the tilts.
pub(crate) fn tilt_byte(tilts: [bool; 6]) -> u8
    ensures { result ≡ flags tilts }
{
    let [a, b, c, d, e, f] = tilts;
    bit(a) + 2 * (bit(b) + 2 * (bit(c) + 2 * (bit(d) + 2 * (bit(e) + 2 * bit(f)))))
}

/// The flags of the doors in a byte, whatever its other bits are.
pub(crate) fn door_flags(byte: u8) -> [bool; 4]
    ensures { result ≡ flags_of 4 byte }
{
    [
        byte % 2 == 1,
        byte / 2 % 2 == 1,
        byte / 4 % 2 == 1,
        byte / 8 % 2 == 1,
    ]
}

/// The flags of the tilts in a byte, whatever its other bits are.
pub(crate) fn tilt_flags(byte: u8) -> [bool; 6]
    ensures { result ≡ flags_of 6 byte }
{
    [
        byte % 2 == 1,
        byte / 2 % 2 == 1,
        byte / 4 % 2 == 1,
        byte / 8 % 2 == 1,
        byte / 16 % 2 == 1,
        byte / 32 % 2 == 1,
    ]
}
