//! Worked values of meshes that no run of the program shows: sides and visits of refined cells, dofs of degree two, the
//! cells that a solution asks to refine, products without a matrix, and lumped masses.
#![tactic(auto)]

#[cfg(test)]
mod dofs;
#[cfg(test)]
mod marks;
#[cfg(test)]
mod masses;
#[cfg(test)]
mod meshes;
#[cfg(test)]
mod products;
#[cfg(test)]
mod sides;
#[cfg(test)]
mod visits;
