//! Where nodes stand in a mesh text, by their ids.
#![tactic(auto)]

mod node_ids;
mod sorted;

pub use node_ids::NodeIds;
