ghost use Rattle.std.specs.Prelude.{◌≡◌};
ghost use Rattle.constrained_mesh.specs.Nodes.{dof_told};
ghost use Rattle.constrained_mesh.specs.Ties.{dof_named, term_named};

use crate::fault::ConstraintFault;
use affine_constraints::Term;
use dof_numbers::Dofs;
use node_ids::NodeIds;
use problem_read::TieTerm;

/// The nodes of a mesh text, and their dofs.
#[derive(Drop)]
pub struct NodeDofs<'a> {
    pub ids: &'a NodeIds<'a>,
    pub dofs: &'a Dofs,
}

impl NodeDofs<'_> {
    /// The dof of the node with an id.
    #[tactic(auto, unfolding(crate::specs::Ties::dof_named, crate::specs::Nodes::dof_told))]
    pub fn dof(&self, id: u32) -> Result<u32, ConstraintFault>
        ensures { result ≡ dof_named (dof_told self.now.ids.now self.now.dofs.now) id }
    {
        let Some(place) = self.ids.place_of(id) else {
            return Err(ConstraintFault::UnknownNode(id));
        };
        match self.dofs.of_node(place) {
            Some(dof) => Ok(dof),
            None => Err(ConstraintFault::UnknownNode(id)),
        }
    }

    /// A term, with the dof of its node.
    #[tactic(auto, unfolding(crate::specs::Ties::term_named))]
    pub fn term(&self, term: TieTerm) -> Result<Term, ConstraintFault>
        ensures { result ≡ term_named (dof_told self.now.ids.now self.now.dofs.now) term }
    {
        match self.dof(term.node) {
            Ok(dof) => Ok(Term {
                dof,
                weight: term.weight,
            }),
            Err(fault) => Err(fault),
        }
    }
}
