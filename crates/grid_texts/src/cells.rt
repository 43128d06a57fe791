ghost use Rattle.std.specs.Prelude.{◌≡◌, ◌+◌, ◌*◌, ◌<◌, ◌≤◌, ◌++◌, OnOk, decimal};
ghost use Rattle.grid_texts.specs.Draws.{state_after};
ghost use Rattle.grid_texts.specs.Grid.{cell_line};
ghost use Rattle.grid_texts.specs.Rows.{cell_row, cell_rows};

use crate::draws::Draws;
use crate::nodes::node_id;
use fem_fixed::NoMemory;
use itoa::Buffer;

/// Adds the lines of the cells, row by row.
pub(crate) fn push_cells(text: &mut Vec<u8>, n: u32, draws: &mut Draws) -> Result<(), NoMemory>
    requires { n ≤ 512 }
    ensures { OnOk result (text.new.items ≡ text.old.items ++ cell_rows n draws.old.state n) }
{
    for j in 0..n {
        push_row(text, n, j, draws)?;
    }
    Ok(())
}

fn push_row(text: &mut Vec<u8>, n: u32, j: u32, draws: &mut Draws) -> Result<(), NoMemory>
    requires few { n ≤ 512 }
    requires within { j < n }
    ensures lines { OnOk result (text.new.items ≡ text.old.items ++ cell_row n j draws.old.state n) }
    ensures state { OnOk result (draws.new.state ≡ state_after draws.old.state n) }
{
    for i in 0..n {
        let material = 1 + draws.draw() % 4;
        push_cell(text, n, i, j, material)?;
    }
    Ok(())
}

#[tactic(auto, unfolding(crate::specs::Grid::cell_line))]
fn push_cell(text: &mut Vec<u8>, n: u32, i: u32, j: u32, material: u64) -> Result<(), NoMemory>
    requires few { n ≤ 512 }
    requires column { i < n }
    requires row { j < n }
    ensures { OnOk result (text.new.items ≡ text.old.items ++ cell_line n i j material) }
{
    push_number(text, cell_id(n, i, j), b" ")?;
    let mut buffer = Buffer::new();
    text.extend_from_slice(buffer.format(material).as_bytes())?;
    text.extend_from_slice(b" quad ")?;
    push_number(text, node_id(n, i, j), b" ")?;
    push_number(text, node_id(n, i + 1, j), b" ")?;
    push_number(text, node_id(n, i + 1, j + 1), b" ")?;
    push_number(text, node_id(n, i, j + 1), b"\n")?;
    Ok(())
}

fn push_number(text: &mut Vec<u8>, number: u32, behind: &[u8]) -> Result<(), NoMemory>
    ensures { OnOk result (text.new.items ≡ text.old.items ++ decimal number ++ behind.now) }
{
    let mut buffer = Buffer::new();
    text.extend_from_slice(buffer.format(number).as_bytes())?;
    text.extend_from_slice(behind)?;
    Ok(())
}

fn cell_id(n: u32, i: u32, j: u32) -> u32
    requires few { n ≤ 512 }
    requires column { i < n }
    requires row { j < n }
    ensures { result ≡ 1 + i + n * j }
{
    1 + i + n * j
}
