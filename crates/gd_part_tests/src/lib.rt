//! What no clause says of the parts below the machine, as tests by their public calls: one module for each crate, or two.
#![tactic(auto)]

#[cfg(test)]
mod base;
#[cfg(test)]
mod cards;
#[cfg(test)]
mod doors;
#[cfg(test)]
mod payout;
#[cfg(test)]
mod recall;
#[cfg(test)]
mod reels;
#[cfg(test)]
mod script;
#[cfg(test)]
mod setups;
#[cfg(test)]
mod stages;
#[cfg(test)]
mod words;
