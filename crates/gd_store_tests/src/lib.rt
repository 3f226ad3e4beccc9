//! What no clause says of disks, of the store on a disk, and of the cabinet on a store, as tests by their public calls.
#![tactic(auto)]

#[cfg(test)]
mod cabinet;
#[cfg(test)]
mod disks;
#[cfg(test)]
mod files;
#[cfg(test)]
mod store;
