ghost use Rattle.std.specs.Prelude.{◌≤◌};

use affine_constraints::Closed;
use sparsity::Pattern;

/// What cells are added by: the pattern of the rows, the closed lines of the constrained dofs, and how sums are kept.
#[derive(Drop)]
pub struct System<'a> {
    pub pattern: &'a Pattern,
    pub closed: &'a Closed,
    /// How many leading binary digits are kept of each sum: 0, which keeps all, to 64.
    pub digits: u32,
    pub ghost few: { digits ≤ 64 },
}
