// Lists of edges.
ghost use Rattle.std.specs.Prelude.{◌≡◌};

use crate::EdgePart;
use std::marker::Model;

/// A list of edges, seen by contracts as that list.
#[derive(Debug, Drop)]
pub struct EdgeParts {
    items: Vec<EdgePart>,
}

impl Model for EdgeParts {
    ghost use Rattle.std.specs.Prelude.{List};
    ghost use Rattle.chyp_graph.specs.declared.edge_part.EdgePart.{EdgePart};

    ghost Value = { List EdgePart };

    ghost view = { λ parts. parts.items.items };
}

impl EdgeParts {
    /// The list of these edges. It takes no memory.
    pub fn from_vec(items: Vec<EdgePart>) -> EdgeParts
        ensures { result ≡ items.items }
    {
        EdgeParts { items }
    }

    /// The edges, in order.
    pub fn as_slice(&self) -> &[EdgePart]
        ensures { result.now ≡ self.now }
    {
        &self.items
    }

    /// Gives the edges back. It takes no memory.
    pub fn into_vec(self) -> Vec<EdgePart>
        ensures { result.items ≡ self }
    {
        self.items
    }
}
