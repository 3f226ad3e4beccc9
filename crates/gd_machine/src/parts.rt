//! A machine as parts.

use gd_account::Account;
use gd_base::{PlayRecord, Reply};
use gd_doors::Conditions;
use gd_payout::Payout;

/// What a machine is made of beside its setup and what is recalled. How many entries its history has is told by the
/// devices' last numbers, which add up to it.
#[derive(Drop)]
pub struct MachineParts {
    pub account: Account,
    pub payout: Payout,
    pub conditions: Conditions,
    pub open_play: Option<PlayRecord>,
    /// Each device's last number, and the reply to it, in the order of the devices.
    pub kept: [(u64, Option<Reply>); 9],
}
