// Layers of boxes and wires.
ghost use Rattle.std.specs.Prelude.{◌≡◌, ◌<◌, [], ◌∷◌, ◌++◌, All, IfOk, length, map};
ghost use Rattle.chyp_term.specs.Morphism.{permutation as a_permutation};
ghost use Rattle.chyp_term.specs.Perm.{IsPermutation, permuted};
ghost use Rattle.chyp_term.specs.Term.{morphism_of, morphisms_of};
ghost use Rattle.chyp_graph.specs.PlainGraph.{sources_of, targets_of};
ghost use Rattle.chyp_extract.specs.Extraction.{generator_of, layer, wire_of};

use crate::halving::halved;
use crate::join::Join;
use chyp_base::{NoMemory, Sorts};
use chyp_graph::{EdgeId, Graph, WireId};
use chyp_term::{Perm, Places, Term};
use std::alloc::Global;
use std::rc::Rc;

/// One tensor chain: the generators of these edges, and then these wires.
pub(crate) fn layer(
    alloc: Global,
    graph: &Graph,
    edges: &[EdgeId],
    wires: &[WireId],
) -> Result<Term, NoMemory>
    requires edges { All (λ k. k < length graph.now.edges) edges.now }
    requires wires { All (λ w. w < length graph.now.wires) wires.now }
    ensures { IfOk result (λ term. morphism_of term ≡ layer graph.now (permuted graph.now.edges edges.now) wires.now) }
{
    let mut row = Vec::new(alloc);
    push_generators(&mut row, graph, edges)?;
    push_wires(&mut row, graph, wires)?;
    halved(alloc, Join::Beside, &row)
}

/// Adds the generators that edges stand for.
fn push_generators(row: &mut Vec<Term>, graph: &Graph, edges: &[EdgeId]) -> Result<(), NoMemory>
    requires { All (λ k. k < length graph.now.edges) edges.now }
    ensures { IfOk result (λ _. morphisms_of row.new.items
        ≡ morphisms_of row.old.items ++ map (generator_of graph.now) (permuted graph.now.edges edges.now)) }
{
    let alloc = *row.allocator();
    for k in edges {
        row.push(generator_of(alloc, graph, *k)?)?;
    }
    Ok(())
}

/// Adds wires, straight through.
fn push_wires(row: &mut Vec<Term>, graph: &Graph, wires: &[WireId]) -> Result<(), NoMemory>
    requires { All (λ w. w < length graph.now.wires) wires.now }
    ensures { IfOk result (λ _. morphisms_of row.new.items ≡ morphisms_of row.old.items ++ map (wire_of graph.now) wires.now) }
{
    let alloc = *row.allocator();
    for w in wires {
        row.push(wire_of(alloc, graph, *w)?)?;
    }
    Ok(())
}

/// The generator that an edge stands for.
fn generator_of(alloc: Global, graph: &Graph, k: EdgeId) -> Result<Term, NoMemory>
    requires { k < length graph.now.edges }
    ensures { IfOk result (λ term. map (generator_of graph.now) (permuted graph.now.edges (k ∷ [])) ≡ morphism_of term ∷ []) }
{
    graph.valid();
    let edge = graph.edge(k);
    Ok(Term::Gen {
        name: edge.name.share()?,
        dom: sorts_at(alloc, graph, edge.sources)?,
        cod: sorts_at(alloc, graph, edge.targets)?,
    })
}

/// A wire, straight through.
fn wire_of(alloc: Global, graph: &Graph, w: WireId) -> Result<Term, NoMemory>
    requires { w < length graph.now.wires }
    ensures { IfOk result (λ term. morphism_of term ≡ wire_of graph.now w) }
{
    let sorts = sorts_at(alloc, graph, &[w])?;
    permutation(alloc, sorts, vec![in alloc; 0]?)
}

/// The sorts of wires.
pub(crate) fn sorts_at(alloc: Global, graph: &Graph, wires: &[WireId]) -> Result<Sorts, NoMemory>
    requires { All (λ w. w < length graph.now.wires) wires.now }
    ensures { IfOk result (λ sorts. sorts ≡ permuted graph.now.wires wires.now) }
{
    let mut sorts = Vec::with_capacity(alloc, wires.len())?;
    for w in wires {
        sorts.push(graph.wire_sort(*w).share()?)?;
    }
    Ok(Sorts::from_vec(sorts))
}

/// The permutation of wires of these sorts with these places.
pub(crate) fn permutation(alloc: Global, sorts: Sorts, places: Vec<u32>) -> Result<Term, NoMemory>
    requires { IsPermutation (length places.items) places.items }
    ensures { IfOk result (λ term. morphism_of term ≡ a_permutation sorts places.items) }
{
    match Perm::new(Places::from_vec(places)) {
        Some(perm) => Ok(Term::Perm {
            sorts,
            perm: Rc::new(alloc, perm)?,
        }),
        None => unreachable!(),
    }
}

/// The sources of these edges, in order.
pub(crate) fn sources_of(
    alloc: Global,
    graph: &Graph,
    edges: &[EdgeId],
) -> Result<Vec<WireId>, NoMemory>
    requires { All (λ k. k < length graph.now.edges) edges.now }
    ensures { IfOk result (λ wires. wires.items ≡ sources_of (permuted graph.now.edges edges.now)) }
{
    let mut wires = Vec::new(alloc);
    for k in edges {
        wires.extend_from_slice(graph.edge(*k).sources)?;
    }
    Ok(wires)
}

/// The targets of these edges, in order.
pub(crate) fn targets_of(
    alloc: Global,
    graph: &Graph,
    edges: &[EdgeId],
) -> Result<Vec<WireId>, NoMemory>
    requires { All (λ k. k < length graph.now.edges) edges.now }
    ensures { IfOk result (λ wires. wires.items ≡ targets_of (permuted graph.now.edges edges.now)) }
{
    let mut wires = Vec::new(alloc);
    for k in edges {
        wires.extend_from_slice(graph.edge(*k).targets)?;
    }
    Ok(wires)
}
