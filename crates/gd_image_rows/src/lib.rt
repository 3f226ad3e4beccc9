//! Worked rows that cross crates, as tests: commands over an image, which are looked at, made and run.
#![tactic(auto)]

#[cfg(test)]
mod commands;
#[cfg(test)]
mod images;
#[cfg(test)]
mod runs;
