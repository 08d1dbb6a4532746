// Pairs of items of two graphs.
use chyp_graph::{EdgeId, WireId};

/// A wire or an edge of one graph, and the one of another graph that it goes to.
#[derive(Clone, Copy, Debug, PartialEq, Eq)]
pub enum Pair {
    /// Two wires.
    Wires(WireId, WireId),
    /// Two edges.
    Edges(EdgeId, EdgeId),
}
