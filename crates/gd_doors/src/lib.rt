//! Which doors are open and which tilts stand, and the condition that locks the machine up. No call takes memory.
#![tactic(auto)]

mod conditions;

pub use conditions::Conditions;
