ghost use Rattle.std.specs.Prelude.{◌≡◌};
ghost use Rattle.constrained_mesh.specs.declared.fault.ConstraintFault.TheVariants.{NoMemory as Memory};
ghost use Rattle.constrained_mesh.specs.Faults.{fault_of};

use affine_constraints::CloseFault;
use fem_fixed::NoMemory;
use std::alloc::AllocFailed;

/// Why a refined mesh has no closed lines under a problem.
#[derive(Clone, Copy, Debug, PartialEq, Eq)]
pub enum ConstraintFault {
    /// The first id of a constraint that is that of no node, or of a node that is no corner of an active cell:
    /// the left one is looked up first, and then those on the right in order.
    UnknownNode(u32),
    /// The dof of the left node of a constraint, where it has a line already.
    Twice(u32),
    /// The least dof that names itself through one or more lines.
    Cycle(u32),
    /// Of the dofs whose closed line is out of range, while those of all constrained dofs that it names
    /// through one or more lines are in range, the least; a weight or the constant is above its limit.
    Weight(u32),
    /// The same dof, where only the number of its terms is above the limit.
    Terms(u32),
    /// Memory ran out. It is the one free answer: no clause ties it to a refused allocation.
    NoMemory,
}

impl From<NoMemory> for ConstraintFault {
    ghost from_gives = { λ _ e. e ≡ Memory };

    fn from(_error: NoMemory) -> ConstraintFault {
        ConstraintFault::NoMemory
    }
}

impl<T: Drop> From<AllocFailed<T>> for ConstraintFault {
    ghost from_gives = { λ _ e. e ≡ Memory };

    fn from(_error: AllocFailed<T>) -> ConstraintFault {
        ConstraintFault::NoMemory
    }
}

impl From<CloseFault> for ConstraintFault {
    ghost from_gives = { λ fault e. e ≡ fault_of fault };

    fn from(fault: CloseFault) -> ConstraintFault {
        match fault {
            CloseFault::Cycle(dof) => ConstraintFault::Cycle(dof),
            CloseFault::Weight(dof) => ConstraintFault::Weight(dof),
            CloseFault::Terms(dof) => ConstraintFault::Terms(dof),
            CloseFault::NoMemory => ConstraintFault::NoMemory,
        }
    }
}
