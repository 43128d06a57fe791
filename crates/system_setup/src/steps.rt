ghost use Rattle.std.specs.Prelude.{◌≡◌, ◌≤◌, ◌^◌, length, Ok, IfOk, IfErr};
ghost use Rattle.dof_numbers.specs.Dofs.{IsNumberingOf};
ghost use Rattle.ucd_read.specs.Bounds.{IsBounded};
ghost use Rattle.diagnostics.specs.Stages.{EndsIn};
ghost use Rattle.system_setup.specs.Scheme.{number_of};
ghost use Rattle.system_setup.specs.SetUp.{CoarseOf, RefinedFrom, ForestOf, RefinedFurther, LinesFor, PatternedFor, SetUpOn, IsSetUp};

use crate::endings::{constraints_ending, mesh_ending, pattern_ending, refining_ending};
use crate::scheme::{Degree, Scheme};
use affine_constraints::Closed;
use constrained_mesh::{constraint_lines, refine_by_steps};
use diagnostics::Ending;
use dof_numbers::Dofs;
use fem_fixed::MeshParts;
use hanging_refine::Forest;
use mesh_loop::Setup;
use node_ids::NodeIds;
use problem_read::Problem;
use quad_mesh::QuadMesh;
use std::alloc::Global;
use std::thread::Threads;

/// The set-up of the system of a mesh and a problem, with dofs of the scheme's degree and the visits of the run of its
/// flags.
///
/// # Errors
///
/// The first refusal in the order of work: a fault of the coarse mesh, of a step of refinement, or of the
/// constraints, or that the pattern has more than 33,554,432 entries.
pub fn set_up(
    rt: &(impl Threads + Sync),
    alloc: Global,
    parts: MeshParts,
    problem: Problem,
    scheme: Scheme,
) -> Result<Setup, Ending>
    requires bounded { IsBounded parts }
    requires ids { length parts.ids ≤ 2 ^ 20 }
    ensures ok { IfOk result (λ setup. IsSetUp scheme parts problem (Ok setup)) }
    ensures refused { IfErr result (EndsIn (IsSetUp scheme parts problem)) }
{
    let (ids, forest) = match refined_mesh(alloc, parts, &problem) {
        Ok(made) => made,
        Err(ending) => return Err(ending),
    };
    set_up_on(rt, alloc, ids.as_slice(), forest, problem, scheme)
}

/// The set-up of the system of a problem on a refined mesh, with the node ids of the mesh text, by position, with dofs of the
/// scheme's degree, and with the visits of the run of its flags.
///
/// # Errors
///
/// The first refusal in the order of work: a fault of the constraints, or that the pattern has more than 33,554,432 entries.
pub fn set_up_on(
    rt: &(impl Threads + Sync),
    alloc: Global,
    ids: &[u32],
    forest: Forest,
    problem: Problem,
    scheme: Scheme,
) -> Result<Setup, Ending>
    requires ids { length ids.now ≤ 2 ^ 20 }
    ensures ok { IfOk result (λ setup. SetUpOn scheme ids.now problem forest (Ok setup)) }
    ensures refused { IfErr result (EndsIn (SetUpOn scheme ids.now problem forest)) }
{
    match numbered_lines(alloc, scheme.degree, &forest, ids, &problem) {
        Ok((dofs, closed)) => with_pattern(rt, alloc, forest, dofs, closed, problem, scheme),
        Err(ending) => Err(ending),
    }
}

/// The node ids of a mesh text, by position, and the mesh after the problem's steps of refinement.
///
/// # Errors
///
/// The first refusal in the order of work: a fault of the coarse mesh, or of a step of refinement.
pub fn refined_mesh(
    alloc: Global,
    parts: MeshParts,
    problem: &Problem,
) -> Result<(Vec<u32>, Forest), Ending>
    requires bounded { IsBounded parts }
    ensures ids { IfOk result (λ made. made.0.items ≡ parts.ids) }
    ensures ok { IfOk result (λ made. ForestOf parts problem.now (Ok made.1)) }
    ensures refused { IfErr result (EndsIn (ForestOf parts problem.now)) }
{
    let (ids, mesh) = match coarse_mesh(alloc, parts) {
        Ok(made) => made,
        Err(ending) => return Err(ending),
    };
    match refined(alloc, mesh, problem) {
        Ok(forest) => Ok((ids, forest)),
        Err(ending) => Err(ending),
    }
}

/// The mesh after one more step of refinement, of these cells.
///
/// # Errors
///
/// Why the step is refused: a cell would be refined more than twelve times, there would be more than 1,048,576 active cells,
/// or a child would be flat.
pub fn refined_further(forest: Forest, cells: &[u32]) -> Result<Forest, Ending>
    ensures ok { IfOk result (λ finer. RefinedFurther forest cells.now (Ok finer)) }
    ensures refused { IfErr result (EndsIn (RefinedFurther forest cells.now)) }
{
    let mut finer = forest;
    match finer.refine(cells) {
        Ok(_) => Ok(finer),
        Err(fault) => Err(refining_ending(fault)),
    }
}

/// The node ids and the coarse mesh.
fn coarse_mesh(alloc: Global, parts: MeshParts) -> Result<(Vec<u32>, QuadMesh), Ending>
    requires { IsBounded parts }
    ensures ids { IfOk result (λ made. made.0.items ≡ parts.ids) }
    ensures ok { IfOk result (λ made. CoarseOf parts.points parts.quads parts.lines (Ok made.1)) }
    ensures refused { IfErr result (EndsIn (CoarseOf parts.points parts.quads parts.lines)) }
{
    let (ids, points, quads, lines) = parts.into_parts();
    match QuadMesh::new(alloc, points, quads, lines) {
        Ok(mesh) => Ok((ids, mesh)),
        Err(fault) => Err(mesh_ending(fault)),
    }
}

/// The mesh after the problem's steps of refinement.
fn refined(alloc: Global, mesh: QuadMesh, problem: &Problem) -> Result<Forest, Ending>
    ensures ok { IfOk result (λ forest. RefinedFrom mesh problem.now (Ok forest)) }
    ensures refused { IfErr result (EndsIn (RefinedFrom mesh problem.now)) }
{
    let mut forest = Forest::of(alloc, mesh)?;
    match refine_by_steps(&mut forest, problem) {
        Ok(()) => Ok(forest),
        Err(fault) => Err(refining_ending(fault)),
    }
}

/// The numbers of the dofs, and the closed lines of the constrained ones.
fn numbered_lines(
    alloc: Global,
    degree: Degree,
    forest: &Forest,
    ids: &[u32],
    problem: &Problem,
) -> Result<(Dofs, Closed), Ending>
    requires ids { length ids.now ≤ 2 ^ 20 }
    ensures degree { IfOk result (λ made. made.0.degree ≡ number_of degree) }
    ensures numbered { IfOk result (λ made. IsNumberingOf forest.now made.0) }
    ensures size { IfOk result (λ made. length made.1 ≡ made.0.size) }
    ensures ok { IfOk result (λ made. LinesFor (number_of degree) ids.now problem.now forest.now (Ok made.1)) }
    ensures refused { IfErr result (EndsIn (LinesFor (number_of degree) ids.now problem.now forest.now)) }
{
    let dofs = Dofs::number(alloc, forest, degree.number())?;
    match closed_lines(alloc, forest, &dofs, ids, problem) {
        Ok(closed) => Ok((dofs, closed)),
        Err(ending) => Err(ending),
    }
}

/// The closed lines of the constrained dofs.
fn closed_lines(
    alloc: Global,
    forest: &Forest,
    dofs: &Dofs,
    ids: &[u32],
    problem: &Problem,
) -> Result<Closed, Ending>
    requires numbered { IsNumberingOf forest.now dofs.now }
    requires ids { length ids.now ≤ 2 ^ 20 }
    ensures ok { IfOk result (λ closed. LinesFor dofs.now.degree ids.now problem.now forest.now (Ok closed)) }
    ensures refused { IfErr result (EndsIn (LinesFor dofs.now.degree ids.now problem.now forest.now)) }
    ensures size { IfOk result (λ closed. length closed ≡ dofs.now.size) }
{
    let nodes = NodeIds::new(alloc, ids)?;
    match constraint_lines(alloc, forest, dofs, &nodes, problem) {
        Ok(closed) => Ok(closed),
        Err(fault) => Err(constraints_ending(fault)),
    }
}

/// The set-up with its pattern.
fn with_pattern(
    rt: &(impl Threads + Sync),
    alloc: Global,
    forest: Forest,
    dofs: Dofs,
    closed: Closed,
    problem: Problem,
    scheme: Scheme,
) -> Result<Setup, Ending>
    requires degree { dofs.degree ≡ number_of scheme.degree }
    requires numbered { IsNumberingOf forest dofs }
    requires size { length closed ≡ dofs.size }
    ensures ok { IfOk result (λ setup. PatternedFor scheme problem forest closed (Ok setup)) }
    ensures refused { IfErr result (EndsIn (PatternedFor scheme problem forest closed)) }
{
    match Setup::build(rt, alloc, forest, dofs, closed, problem, scheme.flags) {
        Ok(setup) => Ok(setup),
        Err(fault) => Err(pattern_ending(fault)),
    }
}
