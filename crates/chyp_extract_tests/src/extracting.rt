// Terms that are read back from graphs.
use crate::words::{graph, graph_of, permutation, told};
use chyp_extractor::{Measures, extract, measure};
use chyp_graph::Graph;
use chyp_term::{Term, depth, gens, size};
use std::alloc::Global;
use std::test::Fail;

/// What the calls of `chyp_term` answer on a term.
fn measures_of(term: &Term) -> Measures {
    Measures {
        size: size(term),
        depth: depth(term),
        gens: gens(term),
    }
}

/// Fails unless the term that is read back from the graph is what these words tell, and is measured so.
fn check(alloc: Global, graph: &Graph, back: &str) -> Result<(), Fail> {
    let term = extract(alloc, graph)?;
    if told(alloc, &term)?.as_str() != back {
        return Err(Fail::new("another term"));
    }
    if measure(alloc, graph)? != measures_of(&term) {
        return Err(Fail::new("other measures"));
    }
    Ok(())
}

#[test]
fn terms_are_read_back(rt: HostRuntime) -> Result<(), Fail> {
    let alloc = rt.alloc();
    for (words, back) in [
        ("f g * sw ;", "((f * g) ; [1, 0])"),
        ("sw g f * ;", "([1, 0] ; (g * f))"),
        ("id0", "[]"),
        ("id2", "([0] * [0])"),
        ("sw sw ;", "([0] * [0])"),
        ("turn turn ;", "[2, 0, 1]"),
        ("f id *", "(f * [0])"),
        // The first box takes the second wire.
        ("id f *", "([1, 0] ; ((f * [0]) ; [1, 0]))"),
        // Boxes without ports are ready in the first round.
        ("f s *", "(f * s)"),
        ("s t ;", "(s * t)"),
        ("s t ; s ;", "(s * (t * s))"),
        // Boxes of one round stand in the order of edges, whatever their places.
        ("u u * m ;", "((u * u) ; m)"),
        ("f u * sw ; m ;", "((f * u) ; ([1, 0] ; m))"),
        ("f f ; f ;", "(f ; (f ; f))"),
        ("f f ; f ; f ;", "((f ; f) ; (f ; f))"),
        ("f f ; g *", "((f * g) ; (f * [0]))"),
    ] {
        check(alloc, &graph(alloc, words)?, back)?;
    }
    Ok(())
}

#[test]
fn terms_are_measured(rt: HostRuntime) -> Result<(), Fail> {
    let alloc = rt.alloc();
    for (words, size, depth, gens) in [
        ("f id *", 6, 2, 1),
        ("id0", 1, 1, 0),
        ("s", 1, 1, 1),
        ("sw", 3, 1, 0),
        ("id f *", 14, 4, 1),
    ] {
        let measures = Measures { size, depth, gens };
        assert_eq!(rt; measure(alloc, &graph(alloc, words)?)?, measures, "{words}");
    }
    Ok(())
}

/// Words joined with themselves so many times, each time twice as many.
fn doubled(alloc: Global, word: &str, times: u32, join: &str) -> Result<String, Fail> {
    let mut words = format!(in alloc; "{word}")?;
    for _ in 0..times {
        words = format!(in alloc; "{words} {words} {join}")?;
    }
    Ok(words)
}

#[test]
fn a_term_that_is_too_big_is_measured_without_it(rt: HostRuntime) -> Result<(), Fail> {
    let alloc = rt.alloc();
    // 1,024 boxes, one behind the other, beside 1,024 wires.
    let wires = doubled(alloc, "id", 10, "*")?;
    let chain = doubled(alloc, "f", 10, ";")?;
    let graph = graph(alloc, &format!(in alloc; "{chain} {wires} *")?)?;
    let measures = measure(alloc, &graph)?;
    // Each round has a box, 1,024 wires and 1,024 joins.
    assert_eq!(rt; measures.size, 1024 * (3 + 2 * 1024 + 1024) + 1023);
    assert_eq!(rt; measures.gens, 1024);
    assert_eq!(rt; measures.depth, 10 + 12);
    Ok(())
}

#[test]
fn many_wires_without_a_box_are_read_back(rt: HostRuntime) -> Result<(), Fail> {
    let alloc = rt.alloc();
    let mut places = Vec::new(alloc);
    for place in 0..100_000 {
        places.push(place)?;
    }
    let graph = graph_of(alloc, &permutation(alloc, places)?)?;
    let measures = measure(alloc, &graph)?;
    assert_eq!(rt; measures.size, 3 * 100_000 - 1);
    assert_eq!(rt; measures, measures_of(&extract(alloc, &graph)?));
    Ok(())
}
