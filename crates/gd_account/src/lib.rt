//! The balance and the meters, and what money does to them. No call takes memory.
#![tactic(auto)]

mod account;
mod parts;
mod posted;
mod totals;

pub use account::Account;
pub use parts::AccountParts;
pub use posted::Posted;
pub use totals::shown;
