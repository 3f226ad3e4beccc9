//! Where the two copies stand on a disk.

use gd_disk::{COPY_LEN, PAGE_COUNT, Side};

/// The gate of a copy that is open. Any other byte shuts it.
pub(crate) const OPEN: u8 = 0xA5;

/// The greatest sequence, that of a full history: 2^36. A payload at it isn't followed by another.
pub const MOST_SEQUENCE: u64 = 68_719_476_736;

/// The most pages of a payload: a bad one is told by a byte.
pub(crate) const MOST_PAGES: u16 = 256;

/// Where two copies stand on a disk, and what their headers say of their form.
#[derive(Clone, Copy, PartialEq, Eq, Debug, Drop)]
pub struct Layout {
    /// The version of the format.
    pub version: u16,
    /// How many pages a payload has.
    pub pages: u16,
    /// The place of the gate of copy a, in bytes from the disk's start.
    pub a: u64,
    /// The place of the gate of copy b, behind copy a.
    pub b: u64,
}

impl Layout {
    ghost use Rattle.std.specs.Prelude.{◌≡◌};
    ghost use Rattle.gd_store.specs.Copy.{gate_at};

    /// The place of a copy's gate.
    pub(crate) fn gate_of(self, side: Side) -> u64
        ensures { result ≡ gate_at self side }
    {
        match side {
            Side::A => self.a,
            Side::B => self.b,
        }
    }
}

/// The layout of every disk that this crate reads and writes. docs/FORMATS.md has the bytes of a copy.
pub const LAYOUT: Layout = Layout {
    version: 0,
    pages: PAGE_COUNT as u16,
    a: 0,
    b: COPY_LEN as u64,
};

const _: () = prove!(OPEN == 0xA5);

const _: () = prove!(MOST_SEQUENCE == 1 << 36);

const _: () = prove!(LAYOUT.version == 0);

const _: () = prove!(LAYOUT.pages == 32);

const _: () = prove!(LAYOUT.a == 0);

const _: () = prove!(LAYOUT.b == 17_457);
