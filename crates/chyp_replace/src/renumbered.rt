// Wires and edges under new numbers.
ghost use Rattle.std.specs.Prelude.{◌≡◌, ℕ, ◌+◌, ◌<◌, ◌++◌, All, IfOk, length, map, slice_index};
ghost use Rattle.chyp_term.specs.Perm.{permuted};
ghost use Rattle.chyp_pattern.specs.Replacement.{kept_edges};
ghost use Rattle.chyp_graph.specs.Validity.{IsValid};
ghost use Rattle.chyp_replace.specs.Renumbered.{renumbered_by, renumbered_edge};

use crate::images::edge_marks;
use crate::numbers::Numbers;
use chyp_base::NoMemory;
use chyp_graph::{EdgeId, EdgePart, EdgeView, Graph, PortList, WireId};
use std::alloc::Global;

/// The wires under their new numbers: the wire w has the number `numbers[w]`.
pub(crate) fn renumbered(
    alloc: Global,
    wires: &[WireId],
    numbers: &[WireId],
) -> Result<Vec<WireId>, NoMemory>
    requires { All (λ w. w < length numbers.now) wires.now }
    ensures { IfOk result (λ renumbered. renumbered.items ≡ map (slice_index numbers.now) wires.now) }
{
    let mut renumbered = Vec::with_capacity(alloc, wires.len())?;
    for wire in wires {
        renumbered.push(numbers[wire.0 as usize])?;
    }
    Ok(renumbered)
}

/// The edge with its sources and its targets under new numbers.
fn renumbered_edge(
    alloc: Global,
    edge: &EdgeView<'_>,
    users: &[WireId],
    makers: &[WireId],
) -> Result<EdgePart, NoMemory>
    requires sources { All (λ w. w < length users.now) edge.now.sources.now }
    requires targets { All (λ w. w < length makers.now) edge.now.targets.now }
    ensures { IfOk result (λ part. part ≡ renumbered_edge users.now makers.now (record {
      name = edge.now.name.now;
      sources = edge.now.sources.now;
      targets = edge.now.targets.now;
    })) }
{
    Ok(EdgePart {
        name: edge.name.share()?,
        sources: PortList::from_vec(renumbered(alloc, edge.sources, users)?),
        targets: PortList::from_vec(renumbered(alloc, edge.targets, makers)?),
    })
}

/// The edges of the graph that are none of the images, under new numbers.
pub(crate) fn kept_edges(
    alloc: Global,
    graph: &Graph,
    images: &[EdgeId],
    numbers: &Numbers,
) -> Result<Vec<EdgePart>, NoMemory>
    requires valid { IsValid graph.now }
    requires images { All (λ k. k < length graph.now.edges) images.now }
    requires users { length numbers.now.users.items ≡ length graph.now.wires }
    requires makers { length numbers.now.makers.items ≡ length graph.now.wires }
    ensures { IfOk result (λ edges. edges.items
        ≡ map (renumbered_by numbers.now) (permuted graph.now.edges (kept_edges graph.now images.now))) }
{
    let marks = edge_marks(alloc, graph.edge_count(), images)?;
    let mut edges = Vec::new(alloc);
    for k in 0..graph.edge_count() {
        if !marks[k as usize] {
            let edge = graph.edge(EdgeId(k));
            edges.push(renumbered_edge(alloc, &edge, &numbers.users, &numbers.makers)?)?;
        }
    }
    Ok(edges)
}

/// Adds the edges of the graph under new numbers.
pub(crate) fn push_edges(
    alloc: Global,
    list: &mut Vec<EdgePart>,
    graph: &Graph,
    numbers: &[WireId],
) -> Result<(), NoMemory>
    requires valid { IsValid graph.now }
    requires numbers { length numbers.now ≡ length graph.now.wires }
    ensures { IfOk result (λ _. list.new.items ≡ list.old.items ++ map (renumbered_edge numbers.now numbers.now) graph.now.edges) }
{
    for k in 0..graph.edge_count() {
        let edge = graph.edge(EdgeId(k));
        list.push(renumbered_edge(alloc, &edge, numbers, numbers)?)?;
    }
    Ok(())
}
