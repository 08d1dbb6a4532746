// Lists of wires, by their numbers.
ghost use Rattle.std.specs.Prelude.{◌≡◌};

use crate::WireId;
use std::alloc::{AllocError, Global};
use std::marker::Model;

/// A list of wires of a graph, seen by contracts as the list of their numbers.
#[derive(Debug, Drop)]
pub struct WireIds {
    items: Vec<WireId>,
}

impl Model for WireIds {
    ghost use Rattle.std.specs.Prelude.{List, ℕ};

    ghost Value = { List ℕ };

    ghost view = { λ ids. ids.items.items };
}

impl WireIds {
    /// The list of these wires. It takes no memory.
    pub fn from_vec(items: Vec<WireId>) -> WireIds
        ensures { result ≡ items.items }
    {
        WireIds { items }
    }

    /// The wires, in order.
    pub fn as_slice(&self) -> &[WireId]
        ensures { result.now ≡ self.now }
    {
        &self.items
    }

    /// Gives the wires back. It takes no memory.
    pub fn into_vec(self) -> Vec<WireId>
        ensures { result.items ≡ self }
    {
        self.items
    }

    /// The allocator that the list was made with.
    pub(crate) fn allocator(&self) -> Global {
        *self.items.allocator()
    }
}

impl Clone for WireIds {
    ghost is_clone = { λ ids copy. copy ≡ ids };

    fn clone(&self) -> Result<WireIds, AllocError> {
        Ok(WireIds {
            items: self.items.clone()?,
        })
    }
}
