//! Tests of what threads share: the pool of scratch objects, the ordered pipeline, rounds of rows, and batches of tasks,
//! each by a small job whose outcome is known.
#![tactic(auto)]

#[cfg(test)]
mod batches;
#[cfg(test)]
mod borrowing;
#[cfg(test)]
mod pipeline;
#[cfg(test)]
mod rounds;
