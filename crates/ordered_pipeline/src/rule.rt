//! The rule of a pipeline, which holds between any two steps of any callers: who has which number, what the
//! words of the ring say, and where the copy objects and the state are.
ghost use Rattle.ordered_pipeline.specs.Rule.{Kept, first_view};

use crate::job::Job;
use crate::view::{Cargo, Known, View};
use atomic_table::TableRule;
use std::marker::PhantomData;
use std::snapshot::Snapshot;

/// What the table is told once. The job and the state at first are known here, as far as proofs go.
#[derive(Drop)]
pub struct Key<J, S> {
    pub job: Snapshot<J>,
    pub state: Snapshot<S>,
    pub items: u64,
    pub queue: u64,
    pub seats: u64,
}

pub struct Order<J> {
    job: PhantomData<J>,
}

impl<J: Job> TableRule<Cargo<J::Copy, J::State>, View<Known<Key<J, J::State>>>, Key<J, J::State>>
    for Order<J> {
    ghost holds = { λ key. Kept J.has_room J.stands J.step key };

    ghost first = { first_view };
}
