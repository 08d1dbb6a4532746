// The ports of edges.
ghost use Rattle.std.specs.Prelude.{◌≡◌, IfOk};

use crate::WireId;
use smallvec::SmallVec;
use std::alloc::{AllocError, Global};
use std::marker::Model;

/// How many ports lie in the list itself. Most generators have no more on one side.
const INLINE_PORTS: usize = 4;

/// The wires on one side of an edge, in order, seen by contracts as the list of their numbers.
#[derive(Debug, Drop)]
pub struct PortList {
    wires: SmallVec<WireId, INLINE_PORTS>,
}

impl Model for PortList {
    ghost use Rattle.std.specs.Prelude.{List, ℕ};

    ghost Value = { List ℕ };

    ghost view = { λ ports. ports.wires.items };
}

impl PortList {
    /// The list of these wires. It takes no memory.
    pub fn from_vec(wires: Vec<WireId>) -> PortList
        ensures { result ≡ wires.items }
    {
        PortList {
            wires: SmallVec::from_vec(wires),
        }
    }

    /// A list of the same wires, which takes no memory where they are few.
    pub(crate) fn from_slice(alloc: Global, wires: &[WireId]) -> Result<PortList, AllocError>
        ensures { IfOk result (λ ports. ports ≡ wires.now) }
    {
        Ok(PortList {
            wires: SmallVec::from_slice(alloc, wires)?,
        })
    }

    /// The wires, in order.
    pub fn as_slice(&self) -> &[WireId]
        ensures { result.now ≡ self.now }
    {
        self.wires.as_slice()
    }

    /// The allocator that the list was made with.
    pub(crate) fn allocator(&self) -> Global {
        *self.wires.allocator()
    }
}

impl Clone for PortList {
    ghost is_clone = { λ ports copy. copy ≡ ports };

    fn clone(&self) -> Result<PortList, AllocError> {
        PortList::from_slice(self.allocator(), self.as_slice())
    }
}
