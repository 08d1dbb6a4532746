ghost use Rattle.std.specs.Prelude.{◌≡◌, ◌≤◌, ◌<◌, [], ◌∷◌, IfOk, IsTrue, length};
ghost use Rattle.chyp_base.specs.Sort.{plain};
ghost use Rattle.chyp_term.specs.Limits.{most_size};
ghost use Rattle.chyp_term.specs.Measure.{size_of};
ghost use Rattle.chyp_term.specs.Morphism.{IsTyped, cod, dom};
ghost use Rattle.chyp_term.specs.Term.{morphism_of};
ghost use Rattle.chyp_graph.specs.GraphOf.{graph_of};
ghost use Rattle.chyp_graph.specs.PlainGraph.{input_sorts, output_sorts};

use crate::diagrams::{are, graph, graph_in_words, graph_of, told, typed};
use chyp_base::{Name, NoMemory, Sort, Sorts};
use chyp_graph::{EdgeId, EdgeIds, EdgePart, EdgeParts, Graph, PortList, WireId, WireIds};
use chyp_laws::graphs_decide_the_laws;
use chyp_term::{Term, shape_of};
use std::alloc::Global;
use std::test::Fail;

#[test]
fn terms_have_their_graphs(rt: HostRuntime) -> Result<(), Fail> {
    let alloc = rt.alloc();
    for (words, wanted) in [
        ("f g * sw ;", "4 wires; f 0 -> 1; g 2 -> 3; 0 2 -> 3 1"),
        ("sw g f * ;", "4 wires; g 1 -> 2; f 0 -> 3; 0 1 -> 2 3"),
    ] {
        assert!(rt; are(graph_in_words(alloc, words)?, wanted), "{words}");
    }
    Ok(())
}

/// Whether a graph has fewer than ten wires and fewer than ten edges.
pub(crate) fn is_small(graph: &Graph) -> bool
    ensures wires { IsTrue result → length graph.now.wires < 10 }
    ensures edges { IsTrue result → length graph.now.edges < 10 }
{
    graph.wire_count() < 10 && graph.edge_count() < 10
}

/// Two small graphs beside each other.
fn beside(first: &Graph, second: &Graph) -> Result<Graph, Fail> {
    if !is_small(first) || !is_small(second) {
        return Err(Fail::new("a big graph"));
    }
    Ok(first.beside(second)?)
}

/// A graph with that of these words beside it, in words.
fn beside_in_words(alloc: Global, first: &Graph, second: &str) -> Result<String, Fail> {
    let second = graph(alloc, second)?;
    let both = beside(first, &second);
    drop(second);
    in_words(alloc, both?)
}

/// A graph in words, which is let go.
fn in_words(alloc: Global, graph: Graph) -> Result<String, Fail> {
    told(alloc, &graph)
}

#[test]
fn graphs_stand_beside_each_other(rt: HostRuntime) -> Result<(), Fail> {
    let alloc = rt.alloc();
    let first = graph(alloc, "f")?;
    let both = beside_in_words(alloc, &first, "g");
    drop(first);
    assert!(rt; are(both?, "4 wires; f 0 -> 1; g 2 -> 3; 0 2 -> 1 3"));
    Ok(())
}

/// Whether what comes out of one term is what goes into the other.
fn fits(alloc: Global, first: &Term, second: &Term) -> bool
    ensures { IsTrue result → cod (morphism_of first.now) ≡ dom (morphism_of second.now) }
{
    match (shape_of(alloc, first), shape_of(alloc, second)) {
        (Ok(first), Ok(second)) => first.cod == second.dom,
        _ => false,
    }
}

/// A small graph behind another one.
fn then(before: &Graph, after: &Graph) -> Result<Graph, Fail>
    requires { output_sorts before.now ≡ input_sorts after.now }
{
    if !is_small(before) || !is_small(after) {
        return Err(Fail::new("a big graph"));
    }
    Ok(before.then(after)?)
}

/// The graph of a term behind another graph.
fn then_term(alloc: Global, before: &Graph, second: &Term) -> Result<Graph, Fail>
    requires typed { IsTyped (morphism_of second.now) }
    requires small { size_of (morphism_of second.now) ≤ most_size }
    requires middle { output_sorts before.now ≡ input_sorts (graph_of (morphism_of second.now)) }
{
    let after = graph_of(alloc, second)?;
    let both = then(before, &after);
    drop(after);
    both
}

/// The graph of the one term behind that of the other.
fn composed(alloc: Global, first: &Term, second: &Term) -> Result<Graph, Fail>
    requires first { IsTyped (morphism_of first.now) }
    requires second { IsTyped (morphism_of second.now) }
    requires first_small { size_of (morphism_of first.now) ≤ most_size }
    requires second_small { size_of (morphism_of second.now) ≤ most_size }
{
    if !fits(alloc, first, second) {
        return Err(Fail::new("terms that don't fit"));
    }
    let before = graph_of(alloc, first)?;
    let both = then_term(alloc, &before, second);
    drop(before);
    both
}

/// The graph of a term behind which that of these words stands, in words.
fn composed_in_words(alloc: Global, first: &Term, second: &str) -> Result<String, Fail>
    requires typed { IsTyped (morphism_of first.now) }
    requires small { size_of (morphism_of first.now) ≤ most_size }
{
    let second = typed(alloc, second)?;
    let graph = composed(alloc, first, &second);
    drop(second);
    in_words(alloc, graph?)
}

#[test]
fn graphs_follow_each_other(rt: HostRuntime) -> Result<(), Fail> {
    let alloc = rt.alloc();
    let first = typed(alloc, "f g *")?;
    let both = composed_in_words(alloc, &first, "sw");
    drop(first);
    assert!(rt; are(both?, "4 wires; f 0 -> 1; g 2 -> 3; 0 2 -> 3 1"));
    Ok(())
}

/// Whether wire 0 leads into edge 0, and wire 1 comes out of it, and has this sort.
fn has_ends(graph: &Graph, sort: &Sort) -> Result<bool, Fail> {
    if graph.wire_count() != 2 {
        return Err(Fail::new("another size"));
    }
    let first = graph.producer(WireId(0)).is_none()
        && matches!(graph.consumer(WireId(0)), Some((EdgeId(0), 0)));
    let second = matches!(graph.producer(WireId(1)), Some((EdgeId(0), 0)))
        && graph.consumer(WireId(1)).is_none();
    Ok(first && second && *graph.wire_sort(WireId(1)) == *sort)
}

#[test]
fn wires_have_their_ends(rt: HostRuntime) -> Result<(), Fail> {
    let alloc = rt.alloc();
    let sort = Sort::plain(alloc)?;
    let graph = graph(alloc, "f")?;
    let good = has_ends(&graph, &sort);
    drop(graph);
    assert!(rt; good?);
    Ok(())
}

/// Two plain wires.
fn two(alloc: Global) -> Result<Sorts, NoMemory>
    ensures { IfOk result (λ sorts. sorts ≡ plain ∷ plain ∷ []) }
{
    let mut sorts = Vec::new(alloc);
    sorts.push(Sort::plain(alloc)?)?;
    sorts.push(Sort::plain(alloc)?)?;
    Ok(Sorts::from_vec(sorts))
}

/// A wire by its number.
fn end(alloc: Global, number: u32) -> Result<WireIds, Fail>
    ensures { IfOk result (λ ids. ids ≡ number ∷ []) }
{
    Ok(WireIds::from_vec(vec![in alloc; WireId(number)]?))
}

/// An edge from wire 1 to wire 0.
fn edge(alloc: Global) -> Result<EdgePart, Fail>
    ensures { IfOk result (λ edge. edge ≡ record { name = 102 ∷ []; sources = 1 ∷ []; targets = 0 ∷ [] }) }
{
    Ok(EdgePart {
        name: Name::new(alloc, "f")?,
        sources: PortList::from_vec(vec![in alloc; WireId(1)]?),
        targets: PortList::from_vec(vec![in alloc; WireId(0)]?),
    })
}

/// This edge alone.
fn edges(alloc: Global) -> Result<EdgeParts, Fail>
    ensures { IfOk result (λ edges. edges ≡ record { name = 102 ∷ []; sources = 1 ∷ []; targets = 0 ∷ [] } ∷ []) }
{
    Ok(EdgeParts::from_vec(vec![in alloc; edge(alloc)?]?))
}

/// The graph of f, whose wires are listed from its end.
fn listed(alloc: Global) -> Result<Graph, Fail> {
    graphs_decide_the_laws();
    let wires = two(alloc)?;
    let edges = edges(alloc)?;
    let inputs = end(alloc, 1)?;
    let outputs = end(alloc, 0)?;
    Ok(Graph::of_parts(wires, edges, inputs, outputs)?)
}

#[test]
fn lists_make_a_graph(rt: HostRuntime) -> Result<(), Fail> {
    let alloc = rt.alloc();
    let words = in_words(alloc, listed(alloc)?)?;
    assert!(rt; are(words, "2 wires; f 1 -> 0; 1 -> 0"));
    Ok(())
}

/// Whether a list of wires holds wire 1 alone, and gives back as much.
fn gives_wire(wires: WireIds) -> bool {
    let holds = wires.as_slice() == [WireId(1)].as_slice();
    let count = wires.into_vec().len();
    holds && count == 1
}

/// Whether a list of edges holds one, and gives back as much.
fn gives_edge(edges: EdgeParts) -> bool {
    let held = edges.as_slice().len();
    let count = edges.into_vec().len();
    held == 1 && count == 1
}

/// Whether a list of numbers of edges holds 7 alone, and gives back as much.
fn gives_number(ids: EdgeIds) -> bool {
    let holds = ids.as_slice() == [EdgeId(7)].as_slice();
    let count = ids.into_vec().len();
    holds && count == 1
}

#[test]
fn lists_give_back_what_they_hold(rt: HostRuntime) -> Result<(), Fail> {
    let alloc = rt.alloc();
    assert!(rt; gives_wire(end(alloc, 1)?));
    assert!(rt; gives_edge(edges(alloc)?));
    assert!(rt; gives_number(EdgeIds::from_vec(vec![in alloc; EdgeId(7)]?)));
    Ok(())
}

#[test]
fn edges_have_their_rounds(rt: HostRuntime) -> Result<(), Fail> {
    let alloc = rt.alloc();
    let rounds = graph(alloc, "u u * m ;")?.rounds()?;
    assert_eq!(rt; rounds.as_slice(), [1, 1, 2].as_slice());
    Ok(())
}
