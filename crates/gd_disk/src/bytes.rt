//! Bytes in memory.
ghost use Rattle.std.specs.Prelude.{◌≡◌, ◌≤◌, ◌+◌, length};
ghost use Rattle.gd_disk.specs.Disk.{with_bytes};

/// Writes over the bytes at a place.
pub(crate) fn put(bytes: &mut [u8], at: usize, new: &[u8])
    requires { at + length new.now ≤ length bytes.old }
    ensures { bytes.new ≡ with_bytes at new.now bytes.old }
{
    bytes[at..at + new.len()].copy_from_slice(new);
}
