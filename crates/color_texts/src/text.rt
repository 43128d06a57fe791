ghost use Rattle.std.specs.Prelude.{◌≡◌, ◌<◌, ◌∷◌, ◌++◌, [], length, map, decimal, IfOk, OnOk};
ghost use Rattle.fem_text.specs.Written.{line_of, text_of};
ghost use Rattle.conflict_coloring.specs.Coloring.{IsColoring, color_count};
ghost use Rattle.color_texts.specs.Text as written;

use conflict_coloring::Colors;
use fem_fixed::NoMemory;
use itoa::{Buffer, Integer};
use std::alloc::Global;

/// The text of a colouring of this many cells: the line `colors N` with the number of colours, and then for each
/// cell a line `cell zone color`. All are counted from 0.
#[tactic(auto, using(crate::proofs::Lines::next_line, crate::proofs::Lines::first_line))]
pub fn colors_text(alloc: Global, colors: &Colors, cells: u32) -> Result<Vec<u8>, NoMemory>
    requires zones { length colors.now.zones ≡ cells }
    requires colors { length colors.now.colors ≡ cells }
    requires starts { 0 < length colors.now.starts }
    ensures { IfOk result (λ text. text.items ≡ written.colors_text colors.now) }
{
    let mut text = Vec::new(alloc);
    text.extend_from_slice(b"colors ")?;
    push_number(&mut text, colors.starts().len() - 1, b"\n")?;
    for cell in 0..cells {
        push_cell(&mut text, cell, colors.zone(cell), colors.color(cell))?;
    }
    Ok(text)
}

// Adds the line of a cell.
fn push_cell(text: &mut Vec<u8>, cell: u32, zone: u32, color: u32) -> Result<(), NoMemory>
    ensures { OnOk result (text.new.items ≡ text.old.items ++ text_of (written.cell_line cell zone color ∷ [])) }
{
    push_number(text, cell, b" ")?;
    push_number(text, zone, b" ")?;
    push_number(text, color, b"\n")
}

// Adds a number and what stands behind it.
fn push_number<I: Integer>(text: &mut Vec<u8>, number: I, behind: &[u8]) -> Result<(), NoMemory>
    ensures { OnOk result (text.new.items ≡ text.old.items ++ (I.text number ++ behind.now)) }
{
    let mut buffer = Buffer::new();
    text.extend_from_slice(buffer.format(number).as_bytes())?;
    text.extend_from_slice(behind)?;
    Ok(())
}
