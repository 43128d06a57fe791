//! A pool of scratch objects, which workers borrow and return: one atomic word of bits says which are at home.
//!
//! Over every interleaving of its callers no object is with two of them. No call waits or takes a lock.
#![tactic(auto)]

mod gate;
mod laws;
mod objects;
mod parked;
mod pass;
mod pool;
mod rule;
mod steps;
mod view;

pub use gate::{Gate, HoldGate, OpenGate};
pub use laws::{pool_states_are_exclusive, pool_steps_are_events};
pub use parked::Parked;
pub use pass::PoolPass;
pub use pool::Pool;
