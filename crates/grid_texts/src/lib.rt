//! Square grids with drawn materials and shifted nodes, and their problem, as texts.
#![tactic(auto)]

mod cells;
mod draws;
mod grid;
mod nodes;

pub use grid::{GridTexts, generate};
