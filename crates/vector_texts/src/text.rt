ghost use Rattle.std.specs.Prelude.{◌≡◌, ◌∷◌, ◌++◌, [], slice_index, IfOk, OnOk};
ghost use Rattle.fem_text.specs.Written.{text_of};
ghost use Rattle.vector_texts.specs.Text as written;

use fem_fixed::NoMemory;
use itoa::{Buffer, Integer};
use std::alloc::Global;

/// The text of marked cells: the line `marks N` with their number, and then for each, in their order, a line with the cell
/// and its indicator. A cell without an indicator has 0.
#[tactic(auto, using(crate::proofs::Lines::next_line, crate::proofs::Lines::first_line))]
pub fn marks_text(alloc: Global, etas: &[u128], cells: &[u32]) -> Result<Vec<u8>, NoMemory>
    ensures { IfOk result (λ text. text.items ≡ written.marks_text etas.now cells.now) }
{
    let mut text = Vec::new(alloc);
    text.extend_from_slice(b"marks ")?;
    push_number(&mut text, cells.len(), b"\n")?;
    for cell in cells {
        push_mark(&mut text, *cell, indicator_of(etas, *cell))?;
    }
    Ok(text)
}

// The indicator of a cell, or 0 where it has none.
fn indicator_of(etas: &[u128], cell: u32) -> u128
    ensures { result ≡ slice_index etas.now cell }
{
    match etas.get(cell as usize) {
        Some(eta) => *eta,
        None => 0,
    }
}

// Adds the line of a cell.
fn push_mark(text: &mut Vec<u8>, cell: u32, eta: u128) -> Result<(), NoMemory>
    ensures { OnOk result (text.new.items ≡ text.old.items ++ text_of (written.pair_line cell eta ∷ [])) }
{
    push_number(text, cell, b" ")?;
    push_number(text, eta, b"\n")
}

// Adds a number and what stands behind it.
fn push_number<I: Integer>(text: &mut Vec<u8>, number: I, behind: &[u8]) -> Result<(), NoMemory>
    ensures { OnOk result (text.new.items ≡ text.old.items ++ (I.text number ++ behind.now)) }
{
    let mut buffer = Buffer::new();
    text.extend_from_slice(buffer.format(number).as_bytes())?;
    text.extend_from_slice(behind)?;
    Ok(())
}
