//! Laws of vectors: a product and marks have one outcome at most on one system or mesh, and one at least.
#![tactic(auto)]

mod laws;

pub use laws::{
    forests_have_marks, forests_have_one_list_of_marks, products_are_exact, systems_have_a_product,
    systems_have_one_product,
};
