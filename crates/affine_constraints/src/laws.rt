ghost use Rattle.affine_constraints.specs.Laws.{HaveOneAnswer, HaveAnAnswer, CanBeClosed};

/// A set of lines has at most one answer: its closed lines, or one fault.
pub fn lines_have_one_answer()
    ensures { HaveOneAnswer }
{}

/// Each set of lines has an answer, so what closing says of its answers is never empty.
pub fn lines_have_an_answer()
    ensures { HaveAnAnswer }
{}

/// Where no dof names itself through one or more lines, there are closed lines, and only these.
pub fn lines_can_be_closed()
    ensures { CanBeClosed }
{}
