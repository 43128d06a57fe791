ghost use Rattle.vector_laws.specs.Laws.{HaveOneProduct, HaveAProduct, ProductsAreExact, HaveOneMarking, HaveAMarking};

use conflict_coloring::{cells_have_a_coloring, cells_have_one_coloring};
use jump_refine::marks_are_unique;

/// Set-ups of one system have the same text of the product with a vector, or the same refusal.
pub fn systems_have_one_product()
    ensures { HaveOneProduct }
{
    cells_have_one_coloring();
}

/// A system has a text of the product with each vector, or a refusal.
pub fn systems_have_a_product()
    ensures { HaveAProduct }
{
    cells_have_a_coloring();
}

/// Where no share of an entry is rounded, the text of a product has the product of the matrix with the vector, of the matrix that
/// each mode with sums writes when it keeps all digits. It speaks of set-ups whose cells write all rows to which they contribute,
/// as each that is built does (`Setup::cells_are_written`).
pub fn products_are_exact()
    ensures { ProductsAreExact }
{}

/// Refined meshes that are the same have the same marked cells by a vector, with the same indicators, or the same refusal.
pub fn forests_have_one_list_of_marks()
    ensures { HaveOneMarking }
{
    marks_are_unique();
}

/// A refined mesh has marked cells by each vector, or a refusal: each list of indicators has its first cells.
pub fn forests_have_marks()
    ensures { HaveAMarking }
{}
