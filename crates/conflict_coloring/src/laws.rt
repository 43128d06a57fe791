ghost use Rattle.conflict_coloring.specs.Laws.{HaveOneColoring, HaveAColoring};

/// Cells have one colouring at most, so each zone, colour and place is decided by the rows.
pub fn cells_have_one_coloring()
    ensures { HaveOneColoring }
{}

/// Each list of cells has a colouring, so what is said of colourings is never empty.
pub fn cells_have_a_coloring()
    ensures { HaveAColoring }
{}
