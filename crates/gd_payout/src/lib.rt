//! What is to be paid out: orders to the printer and the hopper, and handpays. No call takes memory.
#![tactic(auto)]

mod open_order;
mod payout;

pub use gd_base::{Handpay, Order, OrderKind};
pub use payout::Payout;
