//! The serial sum in the order of the cells, by several threads: workers make the blocks of chunks of cells in
//! parallel, and one chunk after another is added to the rows in the order of the cells, by whoever finishes the
//! chunk whose turn it is. After `WorkStream::run` of deal.II (Turcksin, Kronbichler, Bangerth, ACM TOMS 43, 2016).
//!
//! [`MatrixJob`] is what the pipeline runs, [`ChunkCopy`] its copy object, and [`assemble_ordered`] runs it.
#![tactic(auto)]

mod chunk;
mod job;
mod objects;
mod ordered;

pub use chunk::ChunkCopy;
pub use job::MatrixJob;
pub use ordered::assemble_ordered;
