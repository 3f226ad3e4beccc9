//! The records of recall beside those of plays. docs/FORMATS.md has their bytes.

/// How many finished plays are recalled, beside the open one.
pub const PLAYS_KEPT: usize = 10;

/// How many significant events are recalled.
pub const EVENTS_KEPT: usize = 100;

/// How many bills that were taken are recalled.
pub const BILLS_KEPT: usize = 5;

/// How many vouchers are recalled, taken in or printed.
pub const VOUCHERS_KEPT: usize = 35;

const _: () = prove!(
    PLAYS_KEPT == 10 && EVENTS_KEPT == 100 && BILLS_KEPT == 5 && VOUCHERS_KEPT == 35
);

/// A significant event: its code from 1 to 8, and what docs/FORMATS.md says for this code in the detail.
#[derive(Clone, Copy, PartialEq, Eq, Debug)]
pub struct EventRecord {
    /// The place of its entry, from 1.
    pub place: u64,
    pub code: u8,
    /// A door from 1 to 4, a tilt by the number of its condition, an amount in cents, or 0 for a start.
    pub detail: u64,
}

/// A bill that was taken, by the place of its entry from 1 and its value in cents.
#[derive(Clone, Copy, PartialEq, Eq, Debug)]
pub struct BillRecord {
    pub place: u64,
    pub value: u32,
}

/// A voucher, by the place of its entry from 1 and its value in cents.
#[derive(Clone, Copy, PartialEq, Eq, Debug)]
pub struct VoucherRecord {
    pub place: u64,
    /// 1 where it was taken in, 2 where it was printed.
    pub kind: u8,
    /// The id that was read, or the number of the order that it was printed for.
    pub id: u64,
    pub value: u32,
}
