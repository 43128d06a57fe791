//! A batch of tasks that passes take from one deque, each number once.
#![tactic(auto)]

mod batch;
mod end;
mod laws;
mod pass;
mod rule;
mod run;
mod slots;
mod steps;
mod view;

pub use batch::Batch;
pub use laws::{
    batch_states_are_exclusive, batch_steps_are_events, each_task_is_taken_once,
    steps_keep_the_rule,
};
pub use pass::BatchPass;
pub use run::{Tasks, run_batch};
pub use view::Taken;
