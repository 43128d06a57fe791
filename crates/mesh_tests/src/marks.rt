//! Which cells a solution asks to refine.
ghost use Rattle.std.specs.Prelude.{◌≡◌, ◌≤◌, ◌^◌, All, IsTrue, unsigned_abs};

use crate::meshes::{Mesh, ONE, refined};
use dof_numbers::Dofs;
use fixed_q1::LocalFault;
use hanging_refine::Forest;
use jump_refine::{IndicatorFault, indicators, marked};
use std::alloc::Global;
use std::thread::Threads;

/// The largest value at a dof, in ticks.
const LARGEST: i64 = 2_147_483_648;

/// A refined mesh, the values of a function at its dofs, the indicators of its cells or their fault, and the cells that are
/// marked where so many are asked for.
#[derive(Clone, Copy)]
struct Case {
    mesh: Mesh,
    steps: &'static [u32],
    values: &'static [i64],
    etas: Result<&'static [u128], IndicatorFault>,
    count: u32,
    marks: &'static [u32],
}

/// A kink is seen from both sides.
const KINK: Case = Case {
    mesh: Mesh::Strip,
    steps: &[],
    values: &[0, 0, 0, 0, ONE, ONE],
    etas: Ok(&[4_294_967_296, 4_294_967_296]),
    count: 2,
    marks: &[0, 1],
};

/// A linear function has no jump.
const LINEAR: Case = Case {
    mesh: Mesh::Strip,
    steps: &[],
    values: &[0, ONE, 0, ONE, 2 * ONE, 2 * ONE],
    etas: Ok(&[0, 0]),
    count: 1,
    marks: &[0],
};

/// Each side of a hanging part counts. (The indicators are those of an independent program.)
const HANGING: Case = Case {
    mesh: Mesh::Strip,
    steps: &[1],
    values: &[
        0, 1000, -70000, ONE, 131072, 98304, 12345, -54321, 77777, LARGEST, -LARGEST,
    ],
    etas: Ok(&[
        1152649438798463476,
        1152896074555877410,
        9407717885,
        12681140285806208381,
        10375594781904520580,
    ]),
    count: 4,
    marks: &[3, 4, 1, 0],
};

/// The least cell with a fault is told.
const SLIVERS: Case = Case {
    mesh: Mesh::Slivers,
    steps: &[],
    values: &[0; 12],
    etas: Err(IndicatorFault::Local(2, LocalFault::Size)),
    count: 0,
    marks: &[],
};

const CASES: [Case; 4] = [KINK, LINEAR, HANGING, SLIVERS];

fn are_small(values: &[i64]) -> bool
    ensures { IsTrue result → All (λ value. unsigned_abs value ≤ 2 ^ 31) values.now }
{
    values
        .iter()
        .all(|value| value.unsigned_abs() <= LARGEST as u64)
}

/// The indicators of a function with these values at the dofs.
fn etas_of<R: Threads + Sync + AllocGlobal>(
    rt: &R,
    forest: &Forest,
    values: &[i64],
) -> Option<Result<Vec<u128>, IndicatorFault>> {
    let dofs = match Dofs::number(rt.alloc(), forest, 1) {
        Ok(dofs) => dofs,
        Err(_) => return None,
    };
    if values.len() != dofs.size() as usize || !are_small(values) {
        return None;
    }
    Some(indicators(rt, rt.alloc(), forest, &dofs, values))
}

/// Whether so many of the cells with these indicators are marked, and these.
fn are_marked(alloc: Global, etas: &[u128], count: u32, marks: &[u32]) -> bool {
    if etas.len() > 1000 {
        return false;
    }
    match marked(alloc, etas, count) {
        Ok(list) => list.as_slice() == marks,
        Err(_) => false,
    }
}

/// Whether the indicators and the marks are those of the case.
fn is_marked<R: Threads + Sync + AllocGlobal>(rt: &R, case: &Case) -> Option<bool> {
    let (forest, _) = refined(rt.alloc(), case.mesh, case.steps)?;
    match (etas_of(rt, &forest, case.values)?, case.etas) {
        (Ok(etas), Ok(wanted)) => Some(
            etas.as_slice() == wanted && are_marked(rt.alloc(), &etas, case.count, case.marks),
        ),
        (Err(fault), Err(wanted)) => Some(fault == wanted),
        _ => None,
    }
}

#[test]
fn cells_with_the_greatest_jumps_are_marked(rt: HostRuntime) {
    for (i, case) in CASES.iter().enumerate() {
        assert!(rt; is_marked(&rt, case) == Some(true), "number {i}");
    }
    assert!(rt; are_marked(rt.alloc(), &[3, 7, 7, 0, 9], 9, &[4, 1, 2, 0, 3]));
    assert!(rt; are_marked(rt.alloc(), &[], 3, &[]));
}
