// The edges of one round.
ghost use Rattle.std.specs.Prelude.{◌≡◌, [], ◌∷◌, ◌++◌, IfOk};

use chyp_base::NoMemory;
use chyp_graph::EdgeId;
use std::alloc::Global;
use std::marker::Model;

/// The edges that one round takes away, in edge order.
#[derive(Drop)]
pub(crate) struct Round {
    edges: Vec<EdgeId>,
}

impl Model for Round {
    ghost use Rattle.std.specs.Prelude.{List, ℕ};

    ghost Value = { List ℕ };

    ghost view = { λ round. round.edges.items };
}

impl Round {
    /// A round with no edge. It takes no memory.
    pub(crate) fn new(alloc: Global) -> Round
        ensures { result ≡ [] }
    {
        Round {
            edges: Vec::new(alloc),
        }
    }

    /// The edges.
    pub(crate) fn as_slice(&self) -> &[EdgeId]
        ensures { result.now ≡ self.now }
    {
        &self.edges
    }

    /// Adds an edge behind the others.
    pub(crate) fn push(&mut self, edge: EdgeId) -> Result<(), NoMemory>
        ensures { IfOk result (λ _. self.new ≡ self.old ++ edge ∷ []) }
    {
        Ok(self.edges.push(edge)?)
    }
}
