// What stands in columns.
use chyp_graph::{EdgeId, WireId};

/// What stands in a column.
#[derive(Clone, Copy, Debug, PartialEq, Eq)]
pub enum Item {
    /// The box of an edge.
    Box(EdgeId),
    /// A wire that begins, bends or ends there, beside the boxes.
    Wire(WireId),
}
