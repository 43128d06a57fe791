//! Closed constraint lines. The lines are written as a problem text has them, with dofs in place of nodes; `problem_read`
//! reads them.
ghost use Rattle.std.specs.Prelude.{◌≡◌, All, IsTrue, IfSome, length};
ghost use Rattle.affine_constraints.specs.Lines.{IsTerm};

use affine_constraints::{CloseFault, Closed, LineFault, LineSet, Term};
use problem_read::{Problem, TieTerm, read_problem};
use std::alloc::Global;
use std::fmt::Write;

// The dofs of every set of lines here.
const SIZE: u32 = 24;

fn are_terms(terms: &[Term]) -> bool
    ensures { IsTrue result → All (IsTerm SIZE) terms.now }
{
    terms.iter().all(|term| is_term(*term))
}

fn is_term(term: Term) -> bool
    ensures { IsTrue result → IsTerm SIZE term }
{
    term.dof < SIZE && term.weight.unsigned_abs() <= 1_048_576
}

fn terms_of(alloc: Global, read: &[TieTerm]) -> Option<Vec<Term>> {
    let mut terms = Vec::new(alloc);
    for term in read {
        let dof = term.node;
        let weight = term.weight;
        terms.push(Term { dof, weight }).ok()?;
    }
    Some(terms)
}

// Adds a line, where it is within the limits of the call.
fn add(set: &mut LineSet, dof: u32, terms: &[Term], constant: i64) -> Option<Result<(), LineFault>>
    requires { length set.old ≡ SIZE }
    ensures { length set.new ≡ SIZE }
{
    if dof >= SIZE || terms.len() > 16 || constant.unsigned_abs() > 2_147_483_648 {
        return None;
    }
    if !are_terms(terms) {
        return None;
    }
    Some(set.add(dof, terms, constant))
}

// Adds the lines of a problem text.
fn add_all(alloc: Global, set: &mut LineSet, problem: &Problem) -> Option<Result<(), LineFault>>
    requires { length set.old ≡ SIZE }
    ensures { length set.new ≡ SIZE }
{
    for k in 0..problem.ties() {
        let (dof, read, constant) = problem.tie(k);
        let terms = terms_of(alloc, read)?;
        if let Err(fault) = add(set, dof, &terms, constant)? {
            return Some(Err(fault));
        }
    }
    Some(Ok(()))
}

// Adds the closed line of a dof to a text, as ticks, if it has one.
fn add_line(text: &mut String, closed: &Closed, dof: u32) -> Option<()> {
    if dof as usize >= closed.size() {
        return None;
    }
    if let Some((terms, constant)) = closed.line(dof) {
        write!(text, "{dof} =").ok()?;
        for term in terms {
            let master = term.dof;
            let weight = term.weight;
            write!(text, " {weight}*{master} +").ok()?;
        }
        writeln!(text, " {constant}").ok()?;
    }
    Some(())
}

// All closed lines, in ticks.
fn closed_text(alloc: Global, closed: &Closed) -> Option<String> {
    let mut text = String::new(alloc);
    for dof in 0..SIZE {
        add_line(&mut text, closed, dof)?;
    }
    Some(text)
}

// The closed lines of a set, or its fault.
fn outcome_of_set(alloc: Global, set: LineSet) -> Option<String> {
    match set.close() {
        Ok(closed) => closed_text(alloc, &closed),
        Err(fault) => format!(in alloc; "{fault:?}").ok(),
    }
}

// The closed lines of a text, or the first fault: of a line, or of closing.
fn outcome(alloc: Global, text: &str) -> Option<String> {
    if text.len() > 1000 {
        return None;
    }
    let problem = read_problem(alloc, text.as_bytes()).ok()?;
    let mut set = LineSet::new(alloc, SIZE).ok()?;
    match add_all(alloc, &mut set, &problem)? {
        Ok(()) => outcome_of_set(alloc, set),
        Err(fault) => format!(in alloc; "{fault:?}").ok(),
    }
}

// Nine masters, and seven others.
const NINE: &str = "constraint 0 = 1*2 + 1*3 + 1*4 + 1*5 + 1*6 + 1*7 + 1*8 + 1*9 + 1*10\n";

const CASES: [(&str, &str); 15] = [
    // A hanging dof between a dof with a value and one with a line.
    (
        "constraint 1 = 3\nconstraint 3 = 0.5*0 + 1\nconstraint 5 = 0.5*1 + 0.5*3\n",
        "1 = 196608\n3 = 32768*0 + 65536\n5 = 16384*0 + 131072\n",
    ),
    // Terms rise, and a master whose sum is 0 is dropped.
    (
        "constraint 0 = 2*4 + 1*3 + 5*4 + 1*1 + -7*2 + 1\nconstraint 1 = 7*2 + -1*3 + 2\n",
        "0 = 458752*4 + 196608\n1 = 458752*2 + -65536*3 + 131072\n",
    ),
    // Each product is rounded by itself, ties to the even tick: a half, a half and minus a half of three ticks.
    (
        "constraint 0 = 0.5*1 + 0.5*1 + -0.5*1\nconstraint 1 = 0.0000457763671875*2 + 0.0000152587890625\n",
        "0 = 2*2 + 0\n1 = 3*2 + 1\n",
    ),
    // A chain.
    (
        "constraint 2 = 2*3 + 1\nconstraint 0 = 2*1 + 1\nconstraint 1 = 2*2 + 1\n",
        "0 = 524288*3 + 458752\n1 = 262144*3 + 196608\n2 = 131072*3 + 65536\n",
    ),
    // Two ways from one dof to another.
    (
        "constraint 0 = 0.5*1 + 1*2\nconstraint 1 = 0.5*3 + 1*4 + 1\nconstraint 2 = 0.5*3 + 1*4\n",
        "0 = 49152*3 + 98304*4 + 32768\n1 = 32768*3 + 65536*4 + 65536\n2 = 32768*3 + 65536*4 + 0\n",
    ),
    // A constant at its limit, and a tick above it.
    (
        "constraint 0 = 16*1\nconstraint 1 = 2048\n",
        "0 = 2147483648\n1 = 134217728\n",
    ),
    (
        "constraint 0 = 16*1\nconstraint 1 = 2048.0000152587890625\n",
        "Weight(0)",
    ),
    (
        "constraint 4 = 1\nconstraint 0 = 1\nconstraint 4 = 1\n",
        "Twice(4)",
    ),
    // A dof that names itself, with a weight of 0, behind a tail.
    ("constraint 0 = 1*2\nconstraint 2 = 1*1 + 0*2\n", "Cycle(2)"),
    // A cycle of three behind a tail.
    (
        "constraint 0 = 1*3\nconstraint 3 = 1*1\nconstraint 1 = 1*2\nconstraint 2 = 1*3\n",
        "Cycle(1)",
    ),
    // Two cycles, the lesser one met last.
    (
        "constraint 0 = 1*6\nconstraint 5 = 1*6\nconstraint 6 = 1*5\nconstraint 2 = 1*3\nconstraint 3 = 1*2\n",
        "Cycle(2)",
    ),
    // Dof 0 is out of range through dof 2 alone.
    (
        "constraint 0 = 1*2\nconstraint 2 = 16*1\nconstraint 1 = 2*3\n",
        "Weight(2)",
    ),
    (
        "constraint 18 = 1*0 + 1*1\n",
        "18 = 65536*0 + 65536*1 + 0\n",
    ),
    (
        "constraint 18 = 1*0 + 1*1 + 1*19\n",
        "18 = 65536*0 + 65536*1 + 65536*19 + 0\n",
    ),
    ("", ""),
];

#[test]
fn lines_close(rt: HostRuntime) {
    for (text, expected) in CASES {
        let told = outcome(rt.alloc(), text);
        assert!(rt;
            told.is_some_and(|told| told.as_str() == expected),
            "{text}"
        );
    }
}

// What closing gives at dof 18, beside a line of nine terms and one of seven.
fn joined(alloc: Global, line: &str) -> Option<String> {
    let seven = "constraint 1 = 1*11 + 1*12 + 1*13 + 1*14 + 1*15 + 1*16 + 1*17\n";
    let text = format!(in alloc; "{NINE}{seven}{line}").ok()?;
    outcome(alloc, text.as_str())
}

#[test]
fn a_closed_line_has_sixteen_terms_at_most(rt: HostRuntime) {
    let sixteen =
        "18 = 65536*2 + 65536*3 + 65536*4 + 65536*5 + 65536*6 + 65536*7 + 65536*8 + 65536*9 + 65536*10 + \
65536*11 + 65536*12 + 65536*13 + 65536*14 + 65536*15 + 65536*16 + 65536*17 + 0\n";
    let told = joined(rt.alloc(), "constraint 18 = 1*0 + 1*1\n");
    assert!(rt; told.is_some_and(|told| told.as_str().ends_with(sixteen)));
    for (line, fault) in [
        ("constraint 18 = 1*0 + 1*1 + 1*19\n", "Terms(18)"),
        // Where a weight is out of range too, that is told.
        ("constraint 18 = 1*0 + 16*1 + 1*11 + 1*19\n", "Weight(18)"),
    ] {
        let told = joined(rt.alloc(), line);
        assert!(rt; told.is_some_and(|told| told.as_str() == fault), "{line}");
    }
}
