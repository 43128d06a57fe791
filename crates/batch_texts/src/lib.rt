//! The texts of a batch: each name is read once, and all of them together have a limit.
#![tactic(auto)]

mod gather;
mod shelf;
mod shelf_store;

pub use gather::{JobFault, JobName};
pub use shelf::{NameFault, Shelf};
pub use shelf_store::ShelfStore;
