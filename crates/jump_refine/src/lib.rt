//! Where a refined mesh should be refined further: the indicator of each cell, from the jumps of the normal
//! gradient of a function across the faces of the cell, and the cells with the greatest indicators. After
//! `KellyErrorEstimator` and `GridRefinement::refine_and_coarsen_fixed_number` of the deal.II manual.
#![tactic(auto)]

mod cell;
mod fault;
mod function;
mod indicator;
mod jump;
mod laws;
mod marks;
mod part;
mod pieces;
mod side;

pub use fault::IndicatorFault;
pub use indicator::indicators;
pub use laws::marks_are_unique;
pub use marks::marked;
