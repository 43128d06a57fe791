ghost use Rattle.std.specs.Prelude.{◌≡◌, ◌<◌, ◌++◌, All, length, map, OnOk};
ghost use Rattle.affine_constraints.specs.declared.term.Term.{Term as TermOf};
ghost use Rattle.affine_constraints.specs.Lines.{lines_in};
ghost use Rattle.block_sums.specs.Masters.{masters as masters_in};
ghost use Rattle.mesh_loop.specs.Setup.{masters_of};

use affine_constraints::{Closed, Term};
use fem_fixed::NoMemory;

/// Adds the dofs of all masters of these dofs.
pub fn push_masters(list: &mut Vec<u32>, closed: &Closed, dofs: &[u32]) -> Result<(), NoMemory>
    requires { All (λ dof. dof < length closed.now) dofs.now }
    ensures value { OnOk result (list.new.items ≡ list.old.items ++ masters_of (lines_in closed.now) dofs.now) }
    ensures below { OnOk result (All (λ dof. dof < length closed.now) (masters_of (lines_in closed.now) dofs.now)) }
{
    for dof in dofs {
        push_line(list, closed, *dof)?;
    }
    Ok(())
}

/// Adds the dofs of the masters of a dof.
fn push_line(list: &mut Vec<u32>, closed: &Closed, dof: u32) -> Result<(), NoMemory>
    requires { dof < length closed.now }
    ensures value { OnOk result (list.new.items ≡ list.old.items ++ map (λ (term : TermOf). term.dof) (masters_in (lines_in closed.now) dof)) }
    ensures below { OnOk result (All (λ (term : TermOf). term.dof < length closed.now) (masters_in (lines_in closed.now) dof)) }
{
    match closed.line(dof) {
        None => {
            list.push(dof)?;
            Ok(())
        }
        Some((terms, _)) => {
            push_terms(list, terms)?;
            Ok(())
        }
    }
}

/// Adds the dofs of these terms.
fn push_terms(list: &mut Vec<u32>, terms: &[Term]) -> Result<(), NoMemory>
    ensures { OnOk result (list.new.items ≡ list.old.items ++ map (λ (term : TermOf). term.dof) terms.now) }
{
    for term in terms {
        list.push(term.dof)?;
    }
    Ok(())
}
