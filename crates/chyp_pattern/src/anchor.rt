// Where the components of a graph begin.
use chyp_graph::{EdgeId, WireId};

/// What a component of a graph begins with.
#[derive(Clone, Copy, Debug, PartialEq, Eq)]
pub enum Anchor {
    /// The first edge of a component that has edges.
    Edge(EdgeId),
    /// A wire that is a component of its own.
    Wire(WireId),
}
