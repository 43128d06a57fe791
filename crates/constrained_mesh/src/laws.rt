ghost use Rattle.constrained_mesh.specs.Laws.{HasOneAnswer, HasAnAnswer, NeverForMemory, LeastIdDecides};

/// A refined mesh has at most one answer under a problem: its closed lines, or one fault.
pub fn meshes_have_one_answer()
    ensures { HasOneAnswer }
{}

/// A refined mesh has an answer under each problem, so what is said of answers is never empty.
pub fn meshes_have_an_answer()
    ensures { HasAnAnswer }
{}

/// No answer is that memory ran out.
pub fn answers_are_never_for_memory()
    ensures { NeverForMemory }
{}

/// A dof has the Dirichlet line of the least id with a value of the boundary faces on which it lies.
pub fn the_least_id_decides()
    ensures { LeastIdDecides }
{}
