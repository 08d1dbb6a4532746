// Isomorphisms that are lent.
use chyp_graph::{EdgeId, WireId};

/// An isomorphism from one graph to another, lent by the room that it was found in.
#[derive(Clone, Copy, Debug)]
pub struct Iso<'s> {
    /// The images of the edges, in order.
    pub edges: &'s [EdgeId],
    /// The images of the wires, in order.
    pub wires: &'s [WireId],
}
