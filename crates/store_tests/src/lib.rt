//! Tests of the crates that keep a store in blocks, over their public calls.
//! They stand in a crate of their own, since a crate that has tests is proved a second time with them.
#![tactic(auto)]

#[cfg(test)]
mod checking;
#[cfg(test)]
mod closing;
#[cfg(test)]
mod halves;
#[cfg(test)]
mod listings;
#[cfg(test)]
mod maps;
#[cfg(test)]
mod new_stores;
#[cfg(test)]
mod openings;
#[cfg(test)]
mod patched;
#[cfg(test)]
mod stable_blocks;
#[cfg(test)]
mod sweeps;
