// Edges that are lent by a graph.
use crate::WireId;
use chyp_base::Name;

/// An edge of a graph, lent.
#[derive(Clone, Copy, Debug)]
pub struct EdgeView<'a> {
    /// The name of the generator that the edge stands for.
    pub name: &'a Name,
    /// The wires that the edge consumes, in order.
    pub sources: &'a [WireId],
    /// The wires that the edge makes, in order.
    pub targets: &'a [WireId],
}
