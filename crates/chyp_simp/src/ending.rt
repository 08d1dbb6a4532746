// Ends of runs.
use chyp_graph::Graph;

/// How a run of rules on a graph ends.
#[derive(Debug, Drop)]
pub enum Ending {
    /// In a graph in which no rule has an occurrence.
    NormalForm(Graph),
    /// At a rule with too many placements, behind rules that have no occurrence.
    TooWide {
        /// How many there are, or 2^64 - 1 where there are more.
        placements: u64,
    },
    /// At the limit: there were as many rewrites as there may be, and some rule has an occurrence.
    AtLimit,
}
