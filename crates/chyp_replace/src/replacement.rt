// Graphs with an occurrence replaced.
ghost use Rattle.std.specs.Prelude.{◌≡◌, ◌+◌, ◌<◌, ◌^◌, IfOk, length};
ghost use Rattle.chyp_pattern.specs.Occurrence.{IsOccurrence};
ghost use Rattle.chyp_pattern.specs.Replacement.{IsGraphRule, replaced};

use crate::layout::Layout;
use crate::numbers::Numbers;
use crate::renumbered::{kept_edges, push_edges, renumbered};
use chyp_base::{NoMemory, Sorts};
use chyp_extract::replaced_are_valid;
use chyp_graph::{EdgeParts, Graph, WireIds};
use chyp_pattern::{Occurrence, Pattern};
use std::alloc::Global;

/// The graph with the occurrence of the left side replaced by the right side: the pushout step of
/// rewriting graphs (Bonchi, Gadducci, Kissinger, Sobociński and Zanasi, String Diagram Rewrite Theory
/// II). The images of edges and wires go, what is left keeps its order, and the edges and wires of the
/// right side come behind it. What made the image of the i-th input of the left side makes the i-th
/// input of the right side, and what used the image of the i-th output uses the i-th output. It takes
/// time and memory in proportion to the graph, the occurrence and the right side together.
///
/// # Errors
///
/// `NoMemory` where the graph can't be kept.
pub fn replace(
    alloc: Global,
    graph: &Graph,
    left: &Pattern,
    right: &Graph,
    at: &Occurrence,
) -> Result<Graph, NoMemory>
    requires rule { IsGraphRule left.now.graph right.now }
    requires occurrence { IsOccurrence left.now.graph graph.now at.now.edges at.now.wires }
    requires few_wires { length graph.now.wires + length right.now.wires < 2 ^ 31 }
    requires few_edges { length graph.now.edges + length right.now.edges < 2 ^ 31 }
    ensures { IfOk result (λ new. new ≡ replaced graph.now left.now.graph right.now at.now.edges at.now.wires) }
{
    replaced_are_valid();
    let images = at.wires.as_slice();
    let layout = Layout::of(alloc, graph, right, images)?;
    let numbers = Numbers::of(&layout, left.graph(), right, images)?;
    let inputs = renumbered(alloc, graph.inputs(), &numbers.makers)?;
    let outputs = renumbered(alloc, graph.outputs(), &numbers.users)?;
    let mut edges = kept_edges(alloc, graph, at.edges.as_slice(), &numbers)?;
    push_edges(alloc, &mut edges, right, &layout.moved)?;
    Graph::of_parts(
        Sorts::from_vec(layout.wires),
        EdgeParts::from_vec(edges),
        WireIds::from_vec(inputs),
        WireIds::from_vec(outputs),
    )
}
