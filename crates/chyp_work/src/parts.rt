// What a board takes of a graph.
ghost use Rattle.std.specs.Prelude.{◌≡◌, IfOk, map};
ghost use Rattle.chyp_graph.specs.Graph.{lent_edge};
ghost use Rattle.chyp_work.specs.Board.{edge_of};
ghost use Rattle.chyp_work.specs.Filling.{AreParts};

use crate::board::{EdgeItem, Ports};
use chyp_base::{NoMemory, Sort};
use chyp_graph::{EdgeId, EdgeView, Graph, WireId};
use smallvec::SmallVec;
use std::alloc::Global;

/// The sorts and the edges of a graph, and room for the numbers that they get.
#[derive(Drop)]
pub(crate) struct Parts {
    pub(crate) sorts: Vec<Sort>,
    pub(crate) edges: Vec<EdgeItem>,
    pub(crate) wire_ids: Vec<WireId>,
    pub(crate) edge_ids: Vec<EdgeId>,
}

impl Parts {
    /// The parts of a graph, whose edges still name wires by their places.
    pub(crate) fn of(alloc: Global, graph: &Graph) -> Result<Parts, NoMemory>
        ensures { IfOk result (λ parts. AreParts graph.now parts) }
    {
        let wire_ids = Vec::with_capacity(alloc, graph.wire_count() as usize)?;
        let edge_ids = Vec::with_capacity(alloc, graph.edge_count() as usize)?;
        let sorts = shared_sorts(alloc, graph)?;
        let edges = edge_items(alloc, graph)?;
        Ok(Parts {
            sorts,
            edges,
            wire_ids,
            edge_ids,
        })
    }
}

/// The sorts of the wires, in order.
fn shared_sorts(alloc: Global, graph: &Graph) -> Result<Vec<Sort>, NoMemory>
    ensures { IfOk result (λ sorts. sorts.items ≡ graph.now.wires) }
{
    let mut sorts = Vec::new(alloc);
    for w in 0..graph.wire_count() {
        sorts.push(graph.wire_sort(WireId(w)).share()?)?;
    }
    Ok(sorts)
}

/// The edges, in order.
fn edge_items(alloc: Global, graph: &Graph) -> Result<Vec<EdgeItem>, NoMemory>
    ensures { IfOk result (λ edges. map edge_of edges.items ≡ graph.now.edges) }
{
    let mut edges = Vec::new(alloc);
    for k in 0..graph.edge_count() {
        edges.push(item_of(alloc, &graph.edge(EdgeId(k)))?)?;
    }
    Ok(edges)
}

/// An edge with ports of its own.
fn item_of(alloc: Global, edge: &EdgeView<'_>) -> Result<EdgeItem, NoMemory>
    ensures { IfOk result (λ item. edge_of item ≡ lent_edge edge.now) }
{
    let sources: Ports = SmallVec::from_slice(alloc, edge.sources)?;
    let targets: Ports = SmallVec::from_slice(alloc, edge.targets)?;
    Ok(EdgeItem {
        name: edge.name.share()?,
        sources,
        targets,
    })
}
