// The connected components of a graph.
ghost use Rattle.std.specs.Prelude.{◌≡◌, ℕ, List, ◌<◌, ◌^◌, ◌++◌, [], ◌∷◌, All, IfOk, IfSome, length, map};
ghost use Rattle.std.specs.Bool.{MatchBool};
ghost use Rattle.chyp_pattern.specs.Component.{AreAnchors, AreThose, IsBare, IsFirstEdge};
ghost use Rattle.chyp_pattern.specs.Sweep.{AreFoundAt, AreNeighboursFound, IsClosed, IsComponentFound, IsEdgeFound};
ghost use Rattle.chyp_graph.specs.Validity.{IsValid};
ghost use Rattle.chyp_pattern.specs.declared.anchor.Anchor.TheVariants.{Edge, Wire};

use crate::Anchor;
use crate::sweep::Sweep;
use chyp_base::NoMemory;
use chyp_graph::{EdgeId, Graph, WireId};
use std::alloc::Global;

/// What each component of the graph begins with.
pub(crate) fn anchors_of(alloc: Global, graph: &Graph) -> Result<Vec<Anchor>, NoMemory>
    ensures anchors { IfOk result (λ anchors. AreAnchors graph.now anchors.items) }
    ensures few { IfOk result (λ anchors. length anchors.items < 2 ^ 32) }
{
    graph.valid();
    let mut anchors = first_edges(alloc, graph)?;
    push_bare(graph, &mut anchors)?;
    Ok(anchors)
}

/// The first edge of each component that has edges.
fn first_edges(alloc: Global, graph: &Graph) -> Result<Vec<Anchor>, NoMemory>
    requires { IsValid graph.now }
    ensures { IfOk result (λ anchors. (edges : List ℕ) × (anchors.items ≡ map Edge edges) × AreThose (IsFirstEdge graph.now) edges) }
{
    let mut anchors = Vec::new(alloc);
    let mut sweep = Sweep::new(alloc, graph.edge_count())?;
    for k in 0..graph.edge_count() {
        if !sweep.has(EdgeId(k)) {
            anchors.push(Anchor::Edge(EdgeId(k)))?;
            find_component(&mut sweep, graph, EdgeId(k));
        }
    }
    Ok(anchors)
}

/// Finds the edges that are joined with this one.
fn find_component(sweep: &mut Sweep, graph: &Graph, k: EdgeId)
    requires valid { IsValid graph.now }
    requires room { sweep.old.edges ≡ length graph.now.edges }
    requires there { k < length graph.now.edges }
    requires closed { IsClosed graph.now sweep.old.found }
    ensures { IsComponentFound graph.now k sweep.old sweep.new }
{
    let mut next = sweep.len();
    sweep.find(k);
    while next < sweep.len() {
        let edge = sweep.edge(next);
        find_neighbours(sweep, graph, edge);
        next += 1;
    }
}

/// Finds the edges that share a wire with this one.
fn find_neighbours(sweep: &mut Sweep, graph: &Graph, k: EdgeId)
    requires valid { IsValid graph.now }
    requires room { sweep.old.edges ≡ length graph.now.edges }
    requires there { k < length graph.now.edges }
    ensures { AreNeighboursFound graph.now k sweep.old sweep.new }
{
    let edge = graph.edge(k);
    find_all(sweep, graph, edge.sources);
    find_all(sweep, graph, edge.targets);
}

/// Finds the edges that have one of these wires.
fn find_all(sweep: &mut Sweep, graph: &Graph, wires: &[WireId])
    requires valid { IsValid graph.now }
    requires room { sweep.old.edges ≡ length graph.now.edges }
    requires there { All (λ w. w < length graph.now.wires) wires.now }
    ensures { AreFoundAt graph.now wires.now sweep.old sweep.new }
{
    for w in wires {
        find_ports(sweep, graph, *w);
    }
}

/// Finds the edges that have this wire.
fn find_ports(sweep: &mut Sweep, graph: &Graph, w: WireId)
    requires valid { IsValid graph.now }
    requires room { sweep.old.edges ≡ length graph.now.edges }
    requires there { w < length graph.now.wires }
    ensures { AreFoundAt graph.now (w ∷ []) sweep.old sweep.new }
{
    find_edge(sweep, graph.producer(w));
    find_edge(sweep, graph.consumer(w));
}

/// Finds the edge of a port, where there is one.
fn find_edge(sweep: &mut Sweep, port: Option<(EdgeId, u32)>)
    requires { IfSome port (λ port. port.0 < sweep.old.edges) }
    ensures { IsEdgeFound port sweep.old sweep.new }
{
    match port {
        Some((k, _)) => sweep.find(k),
        None => {}
    }
}

/// Adds the wires that are a port of no edge.
fn push_bare(graph: &Graph, anchors: &mut Vec<Anchor>) -> Result<(), NoMemory>
    requires { IsValid graph.now }
    ensures { IfOk result (λ _. (wires : List ℕ)
        × (anchors.new.items ≡ anchors.old.items ++ map Wire wires)
        × AreThose (IsBare graph.now) wires) }
{
    for w in 0..graph.wire_count() {
        if is_bare(graph, WireId(w)) {
            anchors.push(Anchor::Wire(WireId(w)))?;
        }
    }
    Ok(())
}

/// Whether the wire is a port of no edge.
fn is_bare(graph: &Graph, w: WireId) -> bool
    requires valid { IsValid graph.now }
    requires there { w < length graph.now.wires }
    ensures { MatchBool result (IsBare graph.now w) (IsBare graph.now w → ⊥) }
{
    graph.producer(w).is_none() && graph.consumer(w).is_none()
}
