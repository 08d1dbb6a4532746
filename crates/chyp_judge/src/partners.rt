// Wires of two graphs that correspond.
use chyp_graph::WireId;

/// A wire of a graph that is rewritten, and the wire of the one that is to come out that it becomes
/// unless a replacement comes between them and the ends of the graphs.
#[derive(Clone, Copy)]
pub(crate) struct Partners {
    pub(crate) wire: WireId,
    pub(crate) partner: WireId,
    /// The place of the partners by which these were found; None at the ends of the graphs.
    pub(crate) origin: Option<usize>,
}
