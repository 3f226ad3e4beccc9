//! The layout of a payload in bytes: its parts in a row, each filled up with zeros, the lengths of its records, and
//! where the fields of the head stand. docs/FORMATS.md has all fields.

use crate::records::{BILLS_KEPT, EVENTS_KEPT, PLAYS_KEPT, VOUCHERS_KEPT};

/// The length of a payload.
pub const PAYLOAD_LEN: usize = 16384;

// ---- the head

/// The head: the setup's digest, counts, balance, totals, flags, handpay, order, devices, and the lengths of the lists.
pub const HEAD_LEN: usize = 512;

/// The setup's digest, with which the head begins.
pub const SETUP_DIGEST_LEN: usize = 32;

/// Where the number of entries stands.
pub const COUNT_AT: usize = SETUP_DIGEST_LEN;

/// Where the balance stands.
pub const BALANCE_AT: usize = COUNT_AT + 8;

/// Where the sixteen totals begin.
pub const TOTALS_AT: usize = BALANCE_AT + 8;

/// Where the flags of the doors stand, in one byte: bit 0 for the logic door.
pub const DOORS_AT: usize = TOTALS_AT + 8 * 16;

/// Where the flags of the tilts stand, in one byte: bit 0 for the bill jam.
pub const TILTS_AT: usize = DOORS_AT + 1;

/// Where the open handpay stands: its kind, a zero, and its amount.
pub const HANDPAY_AT: usize = TILTS_AT + 1;

/// Where the open order stands: its kind and three zeros; its amount stands behind the number of orders.
pub const ORDER_AT: usize = HANDPAY_AT + 10;

/// Where the number of orders so far stands, which is also that of an open one.
pub const ORDERS_AT: usize = ORDER_AT + 4;

/// Where the amount of the open order stands.
pub const ORDER_AMOUNT_AT: usize = ORDERS_AT + 8;

/// Where what is kept of the nine devices begins.
pub const KEPT_AT: usize = ORDER_AMOUNT_AT + 8;

/// What is kept of one device: its last number, and the reply to it.
pub const KEPT_LEN: usize = 12;

/// Where the four numbers of records stand.
pub const LISTS_AT: usize = KEPT_AT + KEPT_LEN * 9;

/// How many places of the head are the lists', from `LISTS_AT` on: four numbers of two bytes, and zeros.
pub const LISTS_LEN: usize = 28;

// ---- the open play

/// Where the open play stands, behind the head.
pub const OPEN_AT: usize = HEAD_LEN;

/// The part of the open play.
pub const OPEN_PLAY_LEN: usize = 3584;

// ---- the lists, each newest first

/// The record of a play.
pub const PLAY_LEN: usize = 186;

/// The record of a significant event.
pub const EVENT_LEN: usize = 17;

/// The record of a bill.
pub const BILL_LEN: usize = 12;

/// The record of a voucher.
pub const VOUCHER_LEN: usize = 21;

/// Where the list of finished plays begins.
pub const PLAYS_AT: usize = OPEN_AT + OPEN_PLAY_LEN;

/// The list of finished plays.
pub const PLAYS_LEN: usize = PLAY_LEN * PLAYS_KEPT;

/// Where the list of significant events begins.
pub const EVENTS_AT: usize = PLAYS_AT + PLAYS_LEN;

/// The list of significant events.
pub const EVENTS_LEN: usize = EVENT_LEN * EVENTS_KEPT;

/// Where the list of bills begins.
pub const BILLS_AT: usize = EVENTS_AT + EVENTS_LEN;

/// The list of bills.
pub const BILLS_LEN: usize = BILL_LEN * BILLS_KEPT;

/// Where the list of vouchers begins.
pub const VOUCHERS_AT: usize = BILLS_AT + BILLS_LEN;

/// The list of vouchers.
pub const VOUCHERS_LEN: usize = VOUCHER_LEN * VOUCHERS_KEPT;

/// The zeros behind the last list.
pub const REST_LEN: usize = PAYLOAD_LEN - VOUCHERS_AT - VOUCHERS_LEN;

// ---- the same in numbers

const _: () = prove!(COUNT_AT == 32 && BALANCE_AT == 40 && TOTALS_AT == 48);

const _: () = prove!(DOORS_AT == 176 && TILTS_AT == 177 && HANDPAY_AT == 178);

const _: () = prove!(ORDER_AT == 188 && ORDERS_AT == 192 && ORDER_AMOUNT_AT == 200);

const _: () = prove!(KEPT_AT == 208 && KEPT_LEN == 12 && LISTS_AT == 316 && LISTS_LEN == 28);

const _: () = prove!(OPEN_AT == 512 && PLAYS_AT == 4096 && EVENTS_AT == 5956);

const _: () = prove!(BILLS_AT == 7656 && VOUCHERS_AT == 7716 && PAYLOAD_LEN == 16384);

const _: () = prove!(PLAY_LEN == 186 && EVENT_LEN == 17 && BILL_LEN == 12 && VOUCHER_LEN == 21);

const _: () = prove!(PLAYS_LEN == 1860 && EVENTS_LEN == 1700 && BILLS_LEN == 60);

const _: () = prove!(VOUCHERS_LEN == 735 && REST_LEN == 7933);
