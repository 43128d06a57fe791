ghost use Rattle.corner_names.specs.ForestLaws.{StepsKeepForests, FacesAreCovered};

/// The coarse cells are a forest, and each step of refinement leads from a forest to a forest.
pub fn steps_keep_forests()
    ensures { StepsKeepForests }
{}

/// Each face of an active cell is on the boundary, or is covered by one equal, one coarser or two finer faces.
pub fn faces_are_covered()
    ensures { FacesAreCovered }
{}
