//! Worked rows that cross crates, as tests: whole trials in which no cut of the power comes, with what they leave on the disk.
#![tactic(auto)]

#[cfg(test)]
mod alterations;
#[cfg(test)]
mod carried;
#[cfg(test)]
mod clearings;
#[cfg(test)]
mod faults;
#[cfg(test)]
mod money;
#[cfg(test)]
mod payouts;
#[cfg(test)]
mod plays;
#[cfg(test)]
mod refusals;
#[cfg(test)]
mod repeats;
#[cfg(test)]
mod trials;
