ghost use Rattle.std.specs.Prelude.{◌≡◌, ◌≤◌, ◌++◌, ℕ, List, [], length, vec_capacity, IfOk};
ghost use Rattle.std.specs.Prelude.{◌∷◌};
ghost use Rattle.matrix_market.specs.Parts.{size_of};
ghost use Rattle.fem_text.specs.Written.{text_of};
ghost use Rattle.matrix_market.specs.Texts.{size_line};

use fem_fixed::NoMemory;
use fem_text::append_number;
use std::alloc::Global;

/// An empty text with room for this many bytes. So many are more than memory has where a word can't tell.
pub(crate) fn reserve(alloc: Global, size: usize) -> Result<Vec<u8>, NoMemory>
    ensures empty { IfOk result (λ text. text.items ≡ []) }
    ensures room { IfOk result (λ text. (bytes : List ℕ) → size ≡ size_of bytes → length bytes ≤ vec_capacity text) }
{
    if size == usize::MAX {
        return Err(NoMemory);
    }
    Ok(Vec::with_capacity(alloc, size)?)
}

/// Adds the size line of a square matrix.
pub(crate) fn append_size_line(text: &mut Vec<u8>, size: u32, count: u64)
    requires { length (text.old.items ++ text_of (size_line size count ∷ [])) ≤ vec_capacity text.old }
    ensures items { text.new.items ≡ text.old.items ++ text_of (size_line size count ∷ []) }
    ensures room { vec_capacity text.old ≤ vec_capacity text.new }
{
    append_number(text, size, b" ");
    append_number(text, size, b" ");
    append_number(text, count, b"\n");
}
