//! What no clause says of the machine and its image, as tests by their public calls.
#![tactic(auto)]

#[cfg(test)]
mod blocks;
#[cfg(test)]
mod image;
#[cfg(test)]
mod money;
#[cfg(test)]
mod paying;
#[cfg(test)]
mod playing;
#[cfg(test)]
mod tested;
