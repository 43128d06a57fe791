//! The rule of a round's table, and what the table is told once.
ghost use Rattle.colored_copier.specs.Keyed.{JobRule, first_view};

use crate::job::RowJob;
use crate::view::View;
use atomic_table::TableRule;
use std::marker::PhantomData;
use std::snapshot::Snapshot;

/// What the table is told once. The job and the rows at first are known here, as far as proofs go.
#[derive(Drop)]
pub struct Key<J, R> {
    pub job: Snapshot<J>,
    pub rows: Snapshot<Vec<(u32, R)>>,
    pub items: u64,
    pub seats: u64,
}

/// Each claimed number is one pass's, and each row is with the pass that claimed its item, or at home.
pub struct Rounds<J> {
    job: PhantomData<J>,
}

impl<J: RowJob> TableRule<(u32, J::Row), View<Key<J, J::Row>>, Key<J, J::Row>> for Rounds<J> {
    ghost holds = { λ key. JobRule J.count J.rows_of J.row_step key };

    ghost first = { first_view };
}
