ghost use Rattle.std.specs.Prelude.{◌≡◌};
ghost use Rattle.serial_sum.specs.Steps.{failure_fault};

use fem_fixed::NoMemory;
use fixed_q1::LocalFault;
use sparsity::Rows;

/// How a sum fails; the first cell that fails decides.
#[derive(Clone, Copy, Debug, PartialEq, Eq)]
pub enum Failure {
    /// The local form of this cell has a fault.
    Local(u32, LocalFault),
    /// An addition of a contribution of this cell passes 2^80 in size, and this is the least row where one does.
    Sum(u32, u32),
}

/// The rows so far, and how the sum failed, if it did.
#[derive(Drop)]
pub struct MatrixState {
    pub rows: Rows,
    pub failure: Option<Failure>,
}

/// Why there is no sum.
#[derive(Clone, Copy, Debug, PartialEq, Eq)]
pub enum AssembleFault {
    /// The local form of this cell has a fault.
    Local(u32, LocalFault),
    /// An addition of a contribution of this cell passes 2^80 in size, and this is the least row where one does.
    Sum(u32, u32),
    /// Memory ran out. It is the one free answer: no clause ties it to a refused allocation.
    NoMemory,
}

impl From<NoMemory> for AssembleFault {
    ghost use Rattle.serial_sum.specs.declared.sum.AssembleFault.TheVariants.{NoMemory as Memory};

    ghost from_gives = { λ _ e. e ≡ Memory };

    fn from(_error: NoMemory) -> AssembleFault {
        AssembleFault::NoMemory
    }
}

impl From<Failure> for AssembleFault {
    ghost from_gives = { λ failure e. e ≡ failure_fault failure };

    fn from(failure: Failure) -> AssembleFault {
        match failure {
            Failure::Local(cell, fault) => AssembleFault::Local(cell, fault),
            Failure::Sum(cell, row) => AssembleFault::Sum(cell, row),
        }
    }
}
