//! Patterns of lists of dofs, and their texts.
ghost use Rattle.std.specs.Prelude.{◌<◌, All, IsTrue};

use matrix_market::pattern_text;
use sparsity::{Couplings, Pattern, PatternFault};
use std::alloc::Global;
use std::thread::Threads;

fn are_below(list: &[u32], size: u32) -> bool
    ensures { IsTrue result → All (λ j. j < size) list.now }
{
    list.iter().all(|j| *j < size)
}

// Adds a list, where its dofs are below the number of dofs.
fn add(couplings: &mut Couplings, list: &[u32]) -> Option<()> {
    if !are_below(list, couplings.size()) {
        return None;
    }
    couplings.add(list).ok()
}

// The pattern of some lists, or why it can't be made.
fn pattern_of<R: Threads + Sync + AllocGlobal>(
    rt: &R,
    size: u32,
    lists: &[&[u32]],
) -> Option<Result<Pattern, PatternFault>> {
    let mut couplings = Couplings::new(rt.alloc(), size);
    for list in lists {
        add(&mut couplings, list)?;
    }
    Some(Pattern::build(rt, rt.alloc(), &couplings))
}

// The text of a pattern.
fn text_of<R: Threads + Sync + AllocGlobal>(
    rt: &R,
    size: u32,
    lists: &[&[u32]],
) -> Option<Vec<u8>> {
    let pattern = pattern_of(rt, size, lists)?.ok()?;
    pattern_text(rt.alloc(), &pattern).ok()
}

#[test]
fn lists_make_rows(rt: HostRuntime) {
    let text = text_of(&rt, 5, &[&[0, 1, 3], &[4, 1, 4], &[]]);
    let expected =
        "%%MatrixMarket matrix coordinate pattern general\n5 5 13\n1 1\n1 2\n1 4\n2 1\n2 2\n2 4\n2 5\n3 3\n\
4 1\n4 2\n4 4\n5 2\n5 5\n";
    assert!(rt; text.is_some_and(|text| text.as_slice() == expected.as_bytes()));
}

// Why the pattern of one list of so many dofs can't be made.
fn fault_of_all<R: Threads + Sync + AllocGlobal>(rt: &R, size: u32) -> Option<PatternFault> {
    let list: Vec<u32> = (0..size).collect(rt.alloc()).ok()?;
    pattern_of(rt, size, &[&list])?.err()
}

// 5793 dofs in one list have 33,558,849 pairs.
#[test]
fn a_pattern_has_33554432_pairs_at_most(rt: HostRuntime) {
    assert_eq!(rt; fault_of_all(&rt, 5793), Some(PatternFault::Limit));
}
