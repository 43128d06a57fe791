//! The serial sum by several threads: colour after colour, the cells of one colour claimed by workers that write
//! the rows in place, since no two of them share a row. After the coloured assembly of the WorkStream paper
//! (Turcksin, Kronbichler, Bangerth, ACM TOMS 43, 2016).
#![tactic(auto)]

mod colored;
mod crew;
mod heap_rows;
mod row_job;

pub use colored::assemble_colored;
pub use crew::scratches;
pub use heap_rows::HeapRow;
pub use row_job::MatrixRowJob;
