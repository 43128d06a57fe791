ghost use Rattle.std.specs.Prelude.{◌≡◌, ◌*◌, ◌<◌, ◌≤◌, ◌++◌, IfOk, OnOk};
ghost use Rattle.grid_texts.specs.Grid.{mesh_text, problem_text, problem_head, head_line};

use crate::cells::push_cells;
use crate::draws::Draws;
use crate::nodes::push_nodes;
use fem_fixed::NoMemory;
use itoa::Buffer;
use std::alloc::Global;

// The longest lines: `263169 1022.25 1022.25 0`, `262144 4 quad 262655 262656 263169 263168` and the head.
const NODE_LINE: usize = 25;

const CELL_LINE: usize = 42;

const HEAD_LINE: usize = 20;

/// The two texts of a grid.
#[derive(Drop)]
pub struct GridTexts {
    pub mesh: Vec<u8>,
    pub problem: Vec<u8>,
}

/// The mesh text and the problem text of a square grid of n cells in a row and in a column, whose nodes are
/// shifted and whose materials are drawn from a seed.
pub fn generate(alloc: Global, n: u32, seed: u64) -> Result<GridTexts, NoMemory>
    requires some { 0 < n }
    requires few { n ≤ 512 }
    ensures mesh { IfOk result (λ texts. texts.mesh.items ≡ mesh_text n seed) }
    ensures problem { IfOk result (λ texts. texts.problem.items ≡ problem_text n) }
{
    let mesh = mesh_text(alloc, n, seed)?;
    let problem = problem_text(alloc, n)?;
    Ok(GridTexts { mesh, problem })
}

fn mesh_text(alloc: Global, n: u32, seed: u64) -> Result<Vec<u8>, NoMemory>
    requires { n ≤ 512 }
    ensures { IfOk result (λ text. text.items ≡ mesh_text n seed) }
{
    let mut text = Vec::with_capacity(alloc, mesh_room(n))?;
    let mut draws = Draws::new(seed);
    push_head(&mut text, n)?;
    push_nodes(&mut text, n, &mut draws)?;
    push_cells(&mut text, n, &mut draws)?;
    Ok(text)
}

// At least the length of the mesh text.
fn mesh_room(n: u32) -> usize
    requires { n ≤ 512 }
{
    HEAD_LINE + NODE_LINE * square(n + 1) as usize + CELL_LINE * square(n) as usize
}

fn square(side: u32) -> u32
    requires { side ≤ 513 }
    ensures value { result ≡ side * side }
    ensures small { result ≤ 263169 }
{
    side * side
}

#[tactic(auto, unfolding(crate::specs::Grid::head_line))]
fn push_head(text: &mut Vec<u8>, n: u32) -> Result<(), NoMemory>
    requires { n ≤ 512 }
    ensures { OnOk result (text.new.items ≡ text.old.items ++ head_line n) }
{
    let mut buffer = Buffer::new();
    text.extend_from_slice(buffer.format(square(n + 1)).as_bytes())?;
    text.extend_from_slice(b" ")?;
    text.extend_from_slice(buffer.format(square(n)).as_bytes())?;
    text.extend_from_slice(b" 0 0 0\n")?;
    Ok(())
}

#[tactic(auto, unfolding(crate::specs::Grid::problem_text))]
fn problem_text(alloc: Global, n: u32) -> Result<Vec<u8>, NoMemory>
    requires some { 0 < n }
    requires few { n ≤ 512 }
    ensures { IfOk result (λ text. text.items ≡ problem_text n) }
{
    let mut text = problem_head(alloc)?;
    let mut buffer = Buffer::new();
    text.extend_from_slice(buffer.format(square(n) - 1).as_bytes())?;
    text.extend_from_slice(b"\n")?;
    Ok(text)
}

#[tactic(auto, unfolding(crate::specs::Grid::problem_head))]
fn problem_head(alloc: Global) -> Result<Vec<u8>, NoMemory>
    ensures { IfOk result (λ text. text.items ≡ problem_head) }
{
    let lines =
        b"diffusion 1 1\ndiffusion 2 0.5\ndiffusion 3 3\ndiffusion 4 0.001\nsource 1 1\nsource 3 2\ndirichlet 0 0\npenalty 0.01\nrefine 0 ";
    Ok(Vec::from_slice(alloc, lines)?)
}
