//! The serial sum: what each cell contributes to the rows of a system, added one contribution after another to
//! compressed rows. After the serial copier of the WorkStream paper (Turcksin, Kronbichler, Bangerth, ACM TOMS 43,
//! 2016).
//!
//! An [`Adder`] adds contributions one after another: [`AllRows`] to all rows, as a pipeline's copier does it cell after
//! cell, and [`OneRow`] to one row alone, as the rounds of a colour do it. The laws tie both to the definition of the
//! sum.
#![tactic(auto)]

mod adder;
mod adding;
mod all_rows;
mod columns;
mod laws;
mod marks;
mod one_row;
mod part;
mod sum;

pub use adder::Adder;
pub use all_rows::AllRows;
pub use laws::{
    a_row_fits_after_a_part, a_step_is_one_part_more, chunks_are_parts, other_rows_stay,
    rounds_do_the_steps, rows_fit_after_a_step, rows_step_alone, rows_tell_failures,
    steps_give_the_sum, sum_exists, sum_is_unique,
};
pub use marks::first_failure;
pub use one_row::OneRow;
pub use part::{Contribution, Target};
pub use sum::{AssembleFault, Failure, MatrixState};
