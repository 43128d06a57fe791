ghost use Rattle.hanging_refine.specs.Laws.{FacesAreCoveredOnce};

/// Each face of an active cell is covered in exactly one of the four ways of [`crate::ActiveSide`]: it is on the
/// boundary and meets no cell, or it meets just one cell in an equal face, or just one of whose face it is a
/// half, or just two, one at each of its halves.
pub fn faces_are_covered_once()
    ensures { FacesAreCoveredOnce }
{}
