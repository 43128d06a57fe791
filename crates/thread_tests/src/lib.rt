//! Tests that several threads do the work of a sum and of a run, and that the sum is the same whatever their number.
#![tactic(auto)]

#[cfg(test)]
mod colored;
#[cfg(test)]
mod gate;
#[cfg(test)]
mod meshes;
#[cfg(test)]
mod ordered;
#[cfg(test)]
mod runs;
#[cfg(test)]
mod sums;
