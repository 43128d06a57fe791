ghost use Rattle.std.specs.Prelude.{◌≡◌, length, IfOk};
ghost use Rattle.dof_numbers.specs.Dofs.{IsNumberingOf};
ghost use Rattle.constrained_mesh.specs.MeshLines.{AreMeshLines};

use crate::dirichlet::dirichlet_lines;
use affine_constraints::{LineFault, LineSet};
use dof_numbers::Dofs;
use fem_fixed::NoMemory;
use hanging_refine::Forest;
use problem_read::Problem;
use std::alloc::Global;

/// The lines of the mesh: those of boundary values, and those of hanging dofs.
pub fn mesh_lines(
    alloc: Global,
    forest: &Forest,
    dofs: &Dofs,
    problem: &Problem,
) -> Result<LineSet, NoMemory>
    requires { IsNumberingOf forest.now dofs.now }
    ensures size { IfOk result (λ lines. length lines ≡ dofs.now.size) }
    ensures lines { IfOk result (AreMeshLines dofs.now.degree forest.now problem.now) }
{
    let mut lines = dirichlet_lines(alloc, forest, dofs, problem)?;
    match dofs.hanging(alloc, forest, &mut lines) {
        Ok(()) => Ok(lines),
        Err(LineFault::Twice(_)) => unreachable!(),
        Err(LineFault::NoMemory) => Err(NoMemory),
    }
}
