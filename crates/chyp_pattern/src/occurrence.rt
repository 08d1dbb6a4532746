// Occurrences.
ghost use Rattle.std.specs.Prelude.{◌≡◌, IfOk};

use chyp_base::NoMemory;
use chyp_graph::{EdgeIds, WireIds};
use std::alloc::Global;

/// Images of the edges and of the wires of one graph in another, by their numbers.
#[derive(Debug, Drop)]
pub struct Occurrence {
    /// The images of the edges, in order.
    pub edges: EdgeIds,
    /// The images of the wires, in order.
    pub wires: WireIds,
}

impl Occurrence {
    /// An equal occurrence.
    ///
    /// # Errors
    ///
    /// `NoMemory` where it can't be kept.
    pub fn copy(&self, alloc: Global) -> Result<Occurrence, NoMemory>
        ensures { IfOk result (λ occurrence. occurrence ≡ self.now) }
    {
        let edges = Vec::from_slice(alloc, self.edges.as_slice())?;
        let wires = Vec::from_slice(alloc, self.wires.as_slice())?;
        Ok(Occurrence {
            edges: EdgeIds::from_vec(edges),
            wires: WireIds::from_vec(wires),
        })
    }
}
