ghost use Rattle.mesh_visits.specs.Laws.{AllVisitsAreExact};
ghost use Rattle.mesh_visits.specs.OverRuns.{RunsAddUp, SumsAddUp};
ghost use Rattle.mesh_visits.specs.Tests.{AllTestsAreExact};

/// Where they are wanted, each own cell is visited once and each of its faces at the boundary once; each part
/// between own cells is visited never, once from one of its sides, or once from each of them; each part
/// between an own cell and a ghost as the flag for such parts says, and not from the ghost. No other visits
/// are made: none of an inner face as one at the boundary, and none between faces that share no part. A ghost
/// has at most its own visit, and every other cell none. Which faces share a part, and which lie at the
/// boundary, is told by the names of corners.
pub fn visits_are_exact()
    ensures { AllVisitsAreExact }
{}

/// Over the runs of all subdomains that have a cell, with one rule for all parts, each part of an interior face
/// is visited never, once from one of its sides, or once from each of them.
pub fn runs_add_up()
    ensures { RunsAddUp }
{}

/// Whatever a visit of a cell adds, where a part adds the same from each of its sides: under `Once` for all
/// parts and with no visits of ghosts, the runs of all subdomains add together what the run over all cells adds.
pub fn sums_add_up()
    ensures { SumsAddUp }
{}

/// The tests by which visits are defined pass exactly where two faces are one edge, where a face is a half of
/// another, and where a face is part of the boundary, by the names of corners.
pub fn tests_are_exact()
    ensures { AllTestsAreExact }
{}
