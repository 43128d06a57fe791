ghost use Rattle.std.specs.Prelude.{◌≡◌, ◌≢◌, ◌≤◌, All, length, Ok, Err, IfErr, OnOk};
ghost use Rattle.affine_constraints.specs.Lines.{IsTerm};
ghost use Rattle.problem_read.specs.Limits.{IsTieWithin};
ghost use Rattle.constrained_mesh.specs.declared.fault.ConstraintFault.TheVariants.{NoMemory as Memory};
ghost use Rattle.constrained_mesh.specs.Nodes.{dof_told, AreDofsWithin};
ghost use Rattle.constrained_mesh.specs.Ties.{terms_named, with_tie, with_ties};

use crate::fault::ConstraintFault;
use crate::nodes::NodeDofs;
use affine_constraints::{LineFault, LineSet, Term};
use problem_read::{Problem, TieTerm};
use std::alloc::Global;

/// Adds the lines of the constraints of a problem, in order, each decided before the next.
pub fn add_ties(
    alloc: Global,
    nodes: &NodeDofs,
    problem: &Problem,
    lines: &mut LineSet,
) -> Result<(), ConstraintFault>
    requires size { length lines.old ≡ nodes.now.dofs.now.size }
    requires within { AreDofsWithin (dof_told nodes.now.ids.now nodes.now.dofs.now) nodes.now.dofs.now.size }
    ensures ok { OnOk result (with_ties (dof_told nodes.now.ids.now nodes.now.dofs.now) lines.old problem.now.ties ≡ Ok lines.new) }
    ensures fault { IfErr result (λ fault. fault ≢ Memory → with_ties (dof_told nodes.now.ids.now nodes.now.dofs.now) lines.old problem.now.ties ≡ Err fault) }
    ensures size { OnOk result (length lines.new ≡ length lines.old) }
{
    let mut terms = Vec::new(alloc);
    for k in 0..problem.ties() {
        let (node, tie, constant) = problem.tie(k);
        match add_tie(&mut terms, nodes, node, tie, constant, lines) {
            Ok(()) => {}
            Err(fault) => return Err(fault),
        }
    }
    Ok(())
}

/// Adds the line of a constraint: its node, its terms and its constant in ticks.
#[tactic(auto, unfolding(crate::specs::Ties::with_tie))]
fn add_tie(
    terms: &mut Vec<Term>,
    nodes: &NodeDofs,
    node: u32,
    tie: &[TieTerm],
    constant: i64,
    lines: &mut LineSet,
) -> Result<(), ConstraintFault>
    requires size { length lines.old ≡ nodes.now.dofs.now.size }
    requires within { AreDofsWithin (dof_told nodes.now.ids.now nodes.now.dofs.now) nodes.now.dofs.now.size }
    requires limits { IsTieWithin tie.now constant }
    ensures ok { OnOk result (with_tie (dof_told nodes.now.ids.now nodes.now.dofs.now) lines.old (record { node = node; terms = tie.now; constant = constant }) ≡ Ok lines.new) }
    ensures fault { IfErr result (λ fault. fault ≢ Memory → with_tie (dof_told nodes.now.ids.now nodes.now.dofs.now) lines.old (record { node = node; terms = tie.now; constant = constant }) ≡ Err fault) }
    ensures size { OnOk result (length lines.new ≡ length lines.old) }
{
    let dof = match nodes.dof(node) {
        Ok(dof) => dof,
        Err(fault) => return Err(fault),
    };
    match set_terms(terms, nodes, tie) {
        Ok(()) => {}
        Err(fault) => return Err(fault),
    }
    match lines.add(dof, terms, constant) {
        Ok(()) => Ok(()),
        Err(LineFault::Twice(dof)) => Err(ConstraintFault::Twice(dof)),
        Err(LineFault::NoMemory) => Err(ConstraintFault::NoMemory),
    }
}

/// Makes the list that of the terms of a constraint, with the dofs of their nodes.
fn set_terms(
    terms: &mut Vec<Term>,
    nodes: &NodeDofs,
    tie: &[TieTerm],
) -> Result<(), ConstraintFault>
    ensures ok { OnOk result (terms_named (dof_told nodes.now.ids.now nodes.now.dofs.now) tie.now ≡ Ok terms.new.items) }
    ensures fault { IfErr result (λ fault. fault ≢ Memory → terms_named (dof_told nodes.now.ids.now nodes.now.dofs.now) tie.now ≡ Err fault) }
{
    terms.clear();
    for term in tie {
        match nodes.term(*term) {
            Ok(term) => terms.push(term)?,
            Err(fault) => return Err(fault),
        }
    }
    Ok(())
}
