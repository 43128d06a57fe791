//! What the runs of all subdomains add to a system, beside what one run over all cells adds.
#![tactic(auto)]

mod laws;

pub use laws::{blocks_are_two_sided, contributions_add_up};
