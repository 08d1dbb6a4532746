// Graphs to which a rule may be applied.
use chyp_graph::Graph;
use chyp_pattern::Pattern;

/// A graph, and the graphs of the two sides of a rule.
#[derive(Drop)]
pub(crate) struct Redex {
    pub(crate) graph: Graph,
    pub(crate) left: Pattern,
    pub(crate) right: Graph,
}
