// Lists of edges, by their numbers.
ghost use Rattle.std.specs.Prelude.{◌≡◌};

use crate::EdgeId;
use std::marker::Model;

/// A list of edges of a graph, seen by contracts as the list of their numbers.
#[derive(Debug, Drop)]
pub struct EdgeIds {
    items: Vec<EdgeId>,
}

impl Model for EdgeIds {
    ghost use Rattle.std.specs.Prelude.{List, ℕ};

    ghost Value = { List ℕ };

    ghost view = { λ ids. ids.items.items };
}

impl EdgeIds {
    /// The list of these edges. It takes no memory.
    pub fn from_vec(items: Vec<EdgeId>) -> EdgeIds
        ensures { result ≡ items.items }
    {
        EdgeIds { items }
    }

    /// The edges, in order.
    pub fn as_slice(&self) -> &[EdgeId]
        ensures { result.now ≡ self.now }
    {
        &self.items
    }

    /// Gives the edges back. It takes no memory.
    pub fn into_vec(self) -> Vec<EdgeId>
        ensures { result.items ≡ self }
    {
        self.items
    }
}
