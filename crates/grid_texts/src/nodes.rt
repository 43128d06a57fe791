ghost use Rattle.std.specs.Prelude.{◌≡◌, ◌+◌, ◌*◌, ◌≤◌, ◌++◌, if◌then◌else◌, OnOk};
ghost use Rattle.grid_texts.specs.Draws.{state_after};
ghost use Rattle.grid_texts.specs.Grid.{node_id, is_interior, quarters, coordinate, node_line, node_lines, draws_of_nodes};
ghost use Rattle.grid_texts.specs.Rows.{shift, draws_in_row, node_row};

use crate::draws::Draws;
use fem_fixed::NoMemory;
use itoa::Buffer;

/// Adds the lines of the nodes, row by row.
pub(crate) fn push_nodes(text: &mut Vec<u8>, n: u32, draws: &mut Draws) -> Result<(), NoMemory>
    requires { n ≤ 512 }
    ensures lines { OnOk result (text.new.items ≡ text.old.items ++ node_lines n draws.old.state) }
    ensures state { OnOk result (draws.new.state ≡ state_after draws.old.state (draws_of_nodes n)) }
{
    for j in 0..n + 1 {
        push_row(text, n, j, draws)?;
    }
    Ok(())
}

fn push_row(text: &mut Vec<u8>, n: u32, j: u32, draws: &mut Draws) -> Result<(), NoMemory>
    requires few { n ≤ 512 }
    requires within { j ≤ n }
    ensures lines { OnOk result (text.new.items ≡ text.old.items ++ node_row n j draws.old.state (n + 1)) }
    ensures state { OnOk result (draws.new.state ≡ state_after draws.old.state (draws_in_row n j (n + 1))) }
{
    for i in 0..n + 1 {
        let (x_shift, y_shift) = shifts(is_interior(n, i, j), draws);
        push_node(text, n, i, j, x_shift, y_shift)?;
    }
    Ok(())
}

fn is_interior(n: u32, i: u32, j: u32) -> bool
    ensures { result ≡ is_interior n i j }
{
    0 < i && i < n && 0 < j && j < n
}

// How many quarters a node is shifted along x and y.
#[tactic(auto, using(crate::proofs::States::second_state))]
fn shifts(inside: bool, draws: &mut Draws) -> (u64, u64)
    ensures along_x { result.0 ≡ shift inside draws.old.state 1 }
    ensures along_y { result.1 ≡ shift inside draws.old.state 2 }
    ensures state { draws.new.state ≡ (if inside then state_after draws.old.state 2 else draws.old.state) }
{
    if inside {
        let x_shift = draws.draw() % 3;
        let y_shift = draws.draw() % 3;
        (x_shift, y_shift)
    } else {
        (0, 0)
    }
}

#[tactic(auto, unfolding(crate::specs::Grid::node_line))]
fn push_node(
    text: &mut Vec<u8>,
    n: u32,
    i: u32,
    j: u32,
    x_shift: u64,
    y_shift: u64,
) -> Result<(), NoMemory>
    requires few { n ≤ 512 }
    requires column { i ≤ n }
    requires row { j ≤ n }
    ensures { OnOk result (text.new.items ≡ text.old.items ++ node_line n i j x_shift y_shift) }
{
    let mut buffer = Buffer::new();
    text.extend_from_slice(buffer.format(node_id(n, i, j)).as_bytes())?;
    text.extend_from_slice(b" ")?;
    push_coordinate(text, i, x_shift)?;
    text.extend_from_slice(b" ")?;
    push_coordinate(text, j, y_shift)?;
    text.extend_from_slice(b" 0\n")?;
    Ok(())
}

pub(crate) fn node_id(n: u32, i: u32, j: u32) -> u32
    requires few { n ≤ 512 }
    requires column { i ≤ n }
    requires row { j ≤ n }
    ensures { result ≡ node_id n i j }
{
    1 + i + (n + 1) * j
}

fn push_coordinate(text: &mut Vec<u8>, place: u32, shift: u64) -> Result<(), NoMemory>
    requires { place ≤ 512 }
    ensures { OnOk result (text.new.items ≡ text.old.items ++ coordinate place shift) }
{
    let mut buffer = Buffer::new();
    text.extend_from_slice(buffer.format(2 * place).as_bytes())?;
    text.extend_from_slice(quarters(shift))?;
    Ok(())
}

#[tactic(auto, unfolding(crate::specs::Grid::quarters))]
fn quarters(shift: u64) -> &'static [u8]
    ensures { result.now ≡ quarters shift }
{
    match shift {
        0 => b"",
        1 => b".25",
        _ => b".5",
    }
}
