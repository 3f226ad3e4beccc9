//! Worked rows that cross crates, as tests: whole trials with cuts of the power, and those over forged copies.
#![tactic(auto)]

#[cfg(test)]
mod cut_limits;
#[cfg(test)]
mod cut_makings;
#[cfg(test)]
mod cut_starts;
#[cfg(test)]
mod cuts;
#[cfg(test)]
mod evening;
#[cfg(test)]
mod forgeries;
#[cfg(test)]
mod masks;
#[cfg(test)]
mod soaks;
