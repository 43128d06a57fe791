//! The text of a colouring: how many colours there are, and the zone and the colour of each cell.
#![tactic(auto)]

mod text;

pub use text::colors_text;
