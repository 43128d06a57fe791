//! Dofs of degree two, and the constraint lines of both degrees.
ghost use Rattle.std.specs.Prelude.{◌≡◌, ◌<◌, IsTrue, length};
ghost use Rattle.dof_numbers.specs.Dofs.{IsDegree, IsNumberingOf};

use crate::meshes::{Mesh, ONE, unrefined};
use affine_constraints::{Closed, Term};
use constrained_mesh::{constraint_lines, refine_by_steps};
use dof_numbers::Dofs;
use hanging_refine::Forest;
use node_ids::NodeIds;
use problem_read::{Problem, read_problem};
use std::alloc::Global;

/// The ids of the nodes of the strip.
const IDS: [u32; 6] = [1, 2, 3, 4, 5, 6];

/// A line: its dof, its terms by rising dof, each a dof and a weight, and its constant, in ticks.
type AwaitedLine = (u32, &'static [(u32, i64)], i64);

/// The strip under a problem with a degree: how many dofs there are, those of some cells, and the lines of all dofs that
/// have one.
#[derive(Clone, Copy)]
struct Case {
    degree: u32,
    problem: &'static str,
    size: u32,
    rows: &'static [(u32, &'static [u32])],
    lines: &'static [AwaitedLine],
}

/// At the divided cell two middles of halves hang.
const DIVIDED: Case = Case {
    degree: 2,
    problem: "refine 1\n",
    size: 31,
    rows: &[
        (0, &[0, 1, 2, 3, 4, 5, 6, 7, 8]),
        (1, &[1, 9, 5, 10, 11, 12, 13, 14, 15]),
        (3, &[5, 10, 3, 22, 23, 24, 14, 25, 26]),
    ],
    lines: &[
        (11, &[(1, 24576), (3, -8192), (5, 49152)], 0),
        (23, &[(1, -8192), (3, 24576), (5, 49152)], 0),
    ],
};

/// In a corner the least id decides, and the middle of a face has the value of its id.
const FIXED: Case = Case {
    degree: 2,
    problem: "dirichlet 7 1\ndirichlet 3 2\n",
    size: 15,
    rows: &[(1, &[1, 9, 3, 10, 5, 11, 12, 13, 14])],
    lines: &[
        (0, &[], 2 * ONE),
        (1, &[], ONE),
        (2, &[], 2 * ONE),
        (4, &[], 2 * ONE),
        (6, &[], ONE),
        (9, &[], ONE),
        (12, &[], ONE),
    ],
};

const FIXED_CORNERS: Case = Case {
    degree: 1,
    problem: "dirichlet 7 1\ndirichlet 3 2\n",
    size: 6,
    rows: &[(1, &[1, 4, 3, 5])],
    lines: &[
        (0, &[], 2 * ONE),
        (1, &[], ONE),
        (2, &[], 2 * ONE),
        (4, &[], ONE),
    ],
};

const CASES: [Case; 3] = [DIVIDED, FIXED, FIXED_CORNERS];

fn is_degree(degree: u32) -> bool
    ensures { IsTrue result → IsDegree degree }
{
    degree == 1 || degree == 2
}

/// Whether all these cells have their dofs.
fn have_rows(forest: &Forest, dofs: &Dofs, rows: &[(u32, &[u32])]) -> bool
    requires { IsNumberingOf forest.now dofs.now }
{
    for (cell, row) in rows {
        if *cell >= forest.cells() || dofs.of_cell(*cell) != *row {
            return false;
        }
    }
    true
}

/// Whether these are the awaited terms.
fn are_terms(terms: &[Term], awaited: &[(u32, i64)]) -> bool {
    terms.len() == awaited.len()
        && terms
            .iter()
            .zip(awaited.iter())
            .all(|(term, awaited)| (term.dof, term.weight) == *awaited)
}

/// Whether a dof has its awaited line, or has none where none is awaited.
fn is_line(closed: &Closed, dof: u32, lines: &[AwaitedLine]) -> bool {
    if dof as usize >= closed.size() {
        return false;
    }
    let awaited = lines.iter().find(|line| line.0 == dof);
    match (closed.line(dof), awaited) {
        (Some((terms, constant)), Some(line)) => are_terms(terms, line.1) && constant == line.2,
        (None, None) => true,
        _ => false,
    }
}

/// Whether exactly the dofs of a list have lines, and these.
fn have_lines(closed: &Closed, size: u32, lines: &[AwaitedLine]) -> bool {
    closed.size() == size as usize && (0..size).all(|dof| is_line(closed, dof, lines))
}

/// The closed lines of a mesh under a problem.
fn closed_lines(alloc: Global, forest: &Forest, dofs: &Dofs, problem: &Problem) -> Option<Closed>
    requires { IsNumberingOf forest.now dofs.now }
{
    let ids = match NodeIds::new(alloc, &IDS) {
        Ok(ids) => ids,
        Err(_) => return None,
    };
    match constraint_lines(alloc, forest, dofs, &ids, problem) {
        Ok(closed) => Some(closed),
        Err(_) => None,
    }
}

/// The strip after the steps of a problem.
fn stepped(alloc: Global, problem: &Problem) -> Option<Forest> {
    let mut forest = unrefined(alloc, Mesh::Strip)?;
    refine_by_steps(&mut forest, problem).ok()?;
    Some(forest)
}

fn problem_of(alloc: Global, text: &str) -> Option<Problem> {
    if text.len() > 1000 {
        return None;
    }
    read_problem(alloc, text.as_bytes()).ok()
}

/// Whether the strip has the dofs and the lines of a case.
fn is_numbered(alloc: Global, case: &Case) -> Option<bool> {
    if !is_degree(case.degree) {
        return None;
    }
    let problem = problem_of(alloc, case.problem)?;
    let forest = stepped(alloc, &problem)?;
    let dofs = match Dofs::number(alloc, &forest, case.degree) {
        Ok(dofs) => dofs,
        Err(_) => return None,
    };
    let closed = closed_lines(alloc, &forest, &dofs, &problem)?;
    Some(
        dofs.size() == case.size
            && have_rows(&forest, &dofs, case.rows)
            && have_lines(&closed, case.size, case.lines),
    )
}

#[test]
fn middles_and_centres_have_dofs_and_lines(rt: HostRuntime) {
    for (i, case) in CASES.iter().enumerate() {
        assert!(rt; is_numbered(rt.alloc(), case) == Some(true), "number {i}");
    }
}
