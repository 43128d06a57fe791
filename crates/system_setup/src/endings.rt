//! The faults of the mesh, of the constraints and of the pattern as endings of a run.
ghost use Rattle.std.specs.Prelude.{◌≡◌};
ghost use Rattle.system_setup.specs.Endings.{of_mesh, of_refining, of_constraints, of_pattern};

use constrained_mesh::ConstraintFault;
use diagnostics::{ConstraintKind, Ending, LimitKind, MeshKind, Refusal};
use hanging_refine::RefineFault;
use quad_mesh::MeshFault;
use sparsity::PatternFault;

/// How a run ends whose coarse mesh has this fault.
pub(crate) fn mesh_ending(fault: MeshFault) -> Ending
    ensures { result ≡ of_mesh fault }
{
    let (kind, place) = match fault {
        MeshFault::RepeatedCorner(cell) => (MeshKind::RepeatedCorner, cell),
        MeshFault::ZeroArea(cell) => (MeshKind::ZeroArea, cell),
        MeshFault::NotConvex(cell) => (MeshKind::NotConvex, cell),
        MeshFault::EdgeShared(cell) => (MeshKind::EdgeShared, cell),
        MeshFault::LineOffEdge(line) => (MeshKind::LineOffEdge, line),
        MeshFault::BoundaryTwice(line) => (MeshKind::BoundaryTwice, line),
        MeshFault::NoMemory => return Ending::NoMemory,
    };
    Ending::Refused(Refusal::Mesh(kind, place))
}

/// How a run ends whose step of refinement is refused with this fault.
pub(crate) fn refining_ending(fault: RefineFault) -> Ending
    ensures { result ≡ of_refining fault }
{
    let refusal = match fault {
        RefineFault::NoSuchCell(cell) => Refusal::Mesh(MeshKind::NoSuchCell, cell),
        RefineFault::Level(_) => Refusal::Limit(LimitKind::Level),
        RefineFault::Limit => Refusal::Limit(LimitKind::Cells),
        RefineFault::Flat(cell) => Refusal::Mesh(MeshKind::Flat, cell),
        RefineFault::NoMemory => return Ending::NoMemory,
    };
    Ending::Refused(refusal)
}

/// How a run ends whose constraints have this fault.
pub(crate) fn constraints_ending(fault: ConstraintFault) -> Ending
    ensures { result ≡ of_constraints fault }
{
    let (kind, place) = match fault {
        ConstraintFault::UnknownNode(id) => (ConstraintKind::UnknownNode, id),
        ConstraintFault::Twice(dof) => (ConstraintKind::Twice, dof),
        ConstraintFault::Cycle(dof) => (ConstraintKind::Cycle, dof),
        ConstraintFault::Weight(dof) => (ConstraintKind::Weight, dof),
        ConstraintFault::Terms(dof) => (ConstraintKind::Terms, dof),
        ConstraintFault::NoMemory => return Ending::NoMemory,
    };
    Ending::Refused(Refusal::Constraint(kind, place))
}

/// How a run ends whose pattern has this fault.
pub(crate) fn pattern_ending(fault: PatternFault) -> Ending
    ensures { result ≡ of_pattern fault }
{
    match fault {
        PatternFault::Limit => Ending::Refused(Refusal::Limit(LimitKind::Entries)),
        PatternFault::NoMemory => Ending::NoMemory,
    }
}
