ghost use Rattle.answer_laws.specs.Parts.{HaveOneMesh, HaveOneVector, HaveAVector, HaveOneReading, HaveOneListOfTexts, HaveOneAnswerWhereKnown, HaveAReading, HaveAListOfTexts};

use conflict_coloring::{cells_have_a_coloring, cells_have_one_coloring};
use serial_sum::{sum_exists, sum_is_unique};
use system_laws::{a_mesh_has_one_system, refined_meshes_are_one};
use vector_laws::{forests_have_one_list_of_marks, systems_have_one_product};

/// A mesh text in a format has one mesh, or one refusal.
pub(crate) fn mesh_texts_have_one_reading()
    ensures { HaveOneMesh }
{
    ucd_read::one_reading();
    msh_read::one_reading();
}

/// The text of a vector has one list of values, or one refusal.
fn vectors_have_one_reading()
    ensures { HaveOneVector }
{
    matrix_market::one_vector_reading();
}

/// A vector under a name has values, or a refusal.
pub(crate) fn vectors_have_a_reading()
    ensures { HaveAVector }
{
    matrix_market::one_vector_reading();
}

/// A source whose texts are known has one mesh and one problem, or one refusal.
fn sources_have_one_reading()
    ensures { HaveOneReading }
{
    mesh_texts_have_one_reading();
    problem_read::one_reading();
}

/// Set-ups of one system have the same texts, or the same refusal.
fn systems_have_one_list_of_texts()
    ensures { HaveOneListOfTexts }
{
    sum_is_unique();
    cells_have_one_coloring();
}

/// Words have one answer at most where the texts of what they ask for are known.
pub(crate) fn known_texts_have_one_answer()
    ensures { HaveOneAnswerWhereKnown }
{
    run_words::one_reading();
    sources_have_one_reading();
    vectors_have_one_reading();
    a_mesh_has_one_system();
    systems_have_one_list_of_texts();
    refined_meshes_are_one();
    systems_have_one_product();
    forests_have_one_list_of_marks();
}

/// A source has a mesh and a problem, or a refusal.
pub(crate) fn sources_have_a_reading()
    ensures { HaveAReading }
{
    ucd_read::one_reading();
    msh_read::one_reading();
    problem_read::one_reading();
}

/// A set-up has texts, or a refusal.
pub(crate) fn systems_have_a_list_of_texts()
    ensures { HaveAListOfTexts }
{
    sum_exists();
    cells_have_a_coloring();
}
