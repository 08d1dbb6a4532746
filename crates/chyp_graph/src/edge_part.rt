// Edges of plain graphs.
ghost use Rattle.std.specs.Prelude.{◌≡◌};

use crate::PortList;
use chyp_base::Name;
use std::alloc::AllocError;

/// An edge of a graph: a generator's name with its source wires and its target wires.
#[derive(Debug, Drop)]
pub struct EdgePart {
    /// The name of the generator that the edge stands for.
    pub name: Name,
    /// The wires that the edge consumes, in order.
    pub sources: PortList,
    /// The wires that the edge makes, in order.
    pub targets: PortList,
}

impl Clone for EdgePart {
    ghost is_clone = { λ part copy. copy ≡ part };

    fn clone(&self) -> Result<EdgePart, AllocError> {
        Ok(EdgePart {
            name: self.name.clone()?,
            sources: self.sources.clone()?,
            targets: self.targets.clone()?,
        })
    }
}
