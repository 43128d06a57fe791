//! Texts in the Matrix Market exchange format (<https://math.nist.gov/MatrixMarket/formats.html>): matrices, right sides
//! and patterns are written, and matrices and right sides are read back.
//!
//! Values are whole numbers, in units of 2^-32.
#![tactic(auto)]

mod append;
mod banner;
mod fault;
mod laws;
mod matrix_reader;
mod matrix_writer;
mod pattern_writer;
mod push;
mod size;
mod sizes;
mod triples;
mod values;
mod vector_reader;
mod vector_writer;
mod words;

pub use fault::{MarketFault, MarketKind};
pub use laws::{
    one_matrix_reading, one_vector_reading, written_matrices_are_read_back,
    written_right_sides_are_read_back,
};
pub use matrix_reader::read_matrix;
pub use matrix_writer::matrix_text;
pub use pattern_writer::pattern_text;
pub use triples::{Triples, Values};
pub use vector_reader::read_vector;
pub use vector_writer::{values_text, vector_text};
