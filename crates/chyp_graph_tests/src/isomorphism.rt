ghost use Rattle.std.specs.Prelude.{◌≡◌, ◌<◌, length, true};
ghost use Rattle.chyp_iso.specs.Scratch.{HasRoomFor};

use crate::diagrams::{are, graph};
use chyp_graph::{EdgeId, Graph, WireId};
use chyp_iso::{Scratch, same};
use std::alloc::Global;
use std::test::Fail;

/// Whether a graph fits into room for four edges and four wires.
fn is_small(graph: &Graph) -> bool
    ensures { result ≡ true → HasRoomFor 4 4 graph.now }
{
    graph.edge_count() <= 4 && graph.wire_count() <= 4
}

/// Whether there is an isomorphism.
fn is_same(alloc: Global, a: &Graph, b: &Graph) -> Result<bool, Fail> {
    if !is_small(a) || !is_small(b) {
        return Err(Fail::new("too large"));
    }
    let mut scratch = Scratch::for_sizes(alloc, 4, 4)?;
    let there = same(&mut scratch, a, b).is_some();
    let back = same(&mut scratch, b, a).is_some();
    if there != back {
        return Err(Fail::new("another answer the other way"));
    }
    Ok(there)
}

/// The isomorphism, by the images of edges and of wires.
fn told(alloc: Global, a: &Graph, b: &Graph) -> Result<String, Fail> {
    if !is_small(a) || !is_small(b) {
        return Err(Fail::new("too large"));
    }
    let mut scratch = Scratch::for_sizes(alloc, 4, 4)?;
    match same(&mut scratch, a, b) {
        Some(iso) => Ok(format!(in alloc; "{:?} {:?}", iso.edges, iso.wires)?),
        None => Err(Fail::new("no isomorphism")),
    }
}

/// The isomorphism from a graph to that of these words, by its images.
fn told_to(alloc: Global, first: &Graph, second: &str) -> Result<String, Fail> {
    let second = graph(alloc, second)?;
    let images = told(alloc, first, &second);
    // As a call, it takes one step of the proof.
    drop(second);
    images
}

#[test]
fn crossings_pass_through(rt: HostRuntime) -> Result<(), Fail> {
    let alloc = rt.alloc();
    let first = graph(alloc, "f g * sw ;")?;
    let images = told_to(alloc, &first, "sw g f * ;");
    drop(first);
    let wanted = "[EdgeId(1), EdgeId(0)] [WireId(0), WireId(3), WireId(1), WireId(2)]";
    assert!(rt; are(images?, wanted));
    Ok(())
}

#[test]
fn parts_have_to_fit(rt: HostRuntime) -> Result<(), Fail> {
    let alloc = rt.alloc();
    for (first, second, want) in [
        ("f g *", "g f *", false),
        ("f s *", "f", false),
        ("sw", "id2", false),
        ("m", "sw m ;", false),
        ("u f * m ;", "u f * sw ; m ;", false),
        ("u v ; u w ; *", "u w ; u v ; *", true),
        ("u v ; u w ; *", "u v ; u v ; *", false),
    ] {
        let found = is_same(alloc, &graph(alloc, first)?, &graph(alloc, second)?)?;
        assert_eq!(rt; found, want, "{first} and {second}");
    }
    Ok(())
}

/// Whether the first wires go to the second ones, place by place.
fn go_to(first: &[WireId], second: &[WireId], wires: &[u32]) -> bool {
    if first.len() != second.len() {
        return false;
    }
    for (i, v) in first.iter().enumerate() {
        let w = second[i];
        if wires.get(v.0 as usize) != Some(&w.0) {
            return false;
        }
    }
    true
}

/// Whether an edge goes to another one.
fn edge_goes(a: &Graph, b: &Graph, wires: &[u32], e: EdgeId, f: EdgeId) -> bool
    requires { e < length a.now.edges }
{
    if f.0 >= b.edge_count() {
        return false;
    }
    let first = a.edge(e);
    let second = b.edge(f);
    first.name == second.name
        && go_to(first.sources, second.sources, wires)
        && go_to(first.targets, second.targets, wires)
}

/// Whether each number below a count is among the digits.
fn has_all(digits: &[u32], count: u32) -> bool {
    for number in 0..count {
        if !digits.contains(&number) {
            return false;
        }
    }
    true
}

/// The digits of a number, four of them.
fn digits(number: u32, base: u32) -> [u32; 4] {
    let base = base.max(1);
    [
        number % base,
        number / base % base,
        number / base / base % base,
        number / base / base / base % base,
    ]
}

/// Whether all edges go to others by these digits.
fn edges_go(a: &Graph, b: &Graph, wires: &[u32], edges: &[u32; 4]) -> bool {
    for e in 0..a.edge_count() {
        let Some(f) = edges.get(e as usize) else {
            return false;
        };
        if !edge_goes(a, b, wires, EdgeId(e), EdgeId(*f)) {
            return false;
        }
    }
    true
}

/// Whether some bijection of edges fits a bijection of wires.
fn some_edges_go(a: &Graph, b: &Graph, wires: &[u32]) -> bool {
    for number in 0..256 {
        let edges = digits(number, a.edge_count());
        if has_all(&edges, a.edge_count()) && edges_go(a, b, wires, &edges) {
            return true;
        }
    }
    false
}

/// Whether some bijections of wires and of edges are an isomorphism, of graphs of at most four wires
/// and four edges, each of one sort.
fn is_same_by_trial(a: &Graph, b: &Graph) -> bool {
    if a.edge_count() != b.edge_count() || a.wire_count() != b.wire_count() {
        return false;
    }
    for number in 0..256 {
        let wires = digits(number, a.wire_count());
        if has_all(&wires, a.wire_count())
            && go_to(a.inputs(), b.inputs(), &wires)
            && go_to(a.outputs(), b.outputs(), &wires)
            && some_edges_go(a, b, &wires)
        {
            return true;
        }
    }
    false
}

/// A table of small graphs.
fn table(alloc: Global) -> Result<Vec<Graph>, Fail> {
    let mut graphs = Vec::new(alloc);
    for words in [
        "f s *",
        "s f *",
        "s t *",
        "t s *",
        "u v ; u w ; *",
        "u w ; u v ; *",
        "u v ; f *",
        "f f *",
        "f g *",
        "f g * sw ;",
        "sw g f * ;",
    ] {
        graphs.push(graph(alloc, words)?)?;
    }
    Ok(graphs)
}

/// Fails unless the answer for a graph and each of the graphs is that by trial.
fn check_row(alloc: Global, graph: &Graph, graphs: &[Graph]) -> Result<(), Fail> {
    for other in graphs {
        if is_same(alloc, graph, other)? != is_same_by_trial(graph, other) {
            return Err(Fail::new("another answer by trial"));
        }
    }
    Ok(())
}

#[test]
fn the_answer_is_that_by_trial(rt: HostRuntime) -> Result<(), Fail> {
    let alloc = rt.alloc();
    let graphs = table(alloc)?;
    for graph in &graphs {
        check_row(alloc, graph, &graphs)?;
    }
    Ok(())
}
