// What is known of every graph.
ghost use Rattle.std.specs.Prelude.{◌<◌, ◌^◌, length};
ghost use Rattle.chyp_graph.specs.Validity.{IsValid};

use chyp_graph::Graph;

/// Every graph is valid, and not too large.
pub(crate) fn is_bounded(graph: &Graph)
    ensures valid { IsValid graph.now }
    ensures few_edges { length graph.now.edges < 2 ^ 31 }
    ensures few_wires { length graph.now.wires < 2 ^ 31 }
{
    let _ = graph.inputs();
    let _ = graph.edge_count();
    let _ = graph.wire_count();
}
