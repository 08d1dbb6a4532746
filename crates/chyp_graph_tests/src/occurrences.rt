// Occurrences of patterns in graphs.
use crate::diagrams::{are, graph, numbers};
use crate::patterns::pattern_of;
use chyp_graph::{EdgeId, Graph};
use chyp_match::{Listed, Occurrences};
use chyp_pattern::{Occurrence, Pattern};
use std::alloc::Global;
use std::test::Fail;

/// Numbers of edges, each with a blank in front of it.
fn edge_numbers(alloc: Global, edges: &[EdgeId]) -> Result<String, Fail> {
    let mut words = String::new(alloc);
    for edge in edges {
        words = format!(in alloc; "{words} {}", edge.0)?;
    }
    Ok(words)
}

/// The images of edges, a colon, and those of wires.
pub(crate) fn images(alloc: Global, at: &Occurrence) -> Result<String, Fail> {
    let edges = edge_numbers(alloc, at.edges.as_slice())?;
    let wires = numbers(alloc, at.wires.as_slice())?;
    Ok(format!(in alloc; "{edges}:{wires}")?)
}

/// The next occurrence in words, and a stroke where there is none.
fn next(alloc: Global, occurrences: &mut Occurrences) -> Result<String, Fail> {
    match occurrences.next() {
        Some(at) => images(alloc, at),
        None => Ok(format!(in alloc; "-")?),
    }
}

/// The next eight occurrences in words.
fn eight(alloc: Global, occurrences: &mut Occurrences) -> Result<String, Fail> {
    let mut words = String::new(alloc);
    for _ in 0..8u32 {
        let at = next(alloc, occurrences)?;
        words = format!(in alloc; "{words}{at};")?;
    }
    Ok(words)
}

/// The first eight occurrences of the pattern in words.
fn told_in(alloc: Global, pattern: &Pattern, target: &Graph) -> Result<String, Fail> {
    let listed = Listed::of(alloc, target)?;
    let mut occurrences = Occurrences::new(alloc, pattern, &listed)?;
    let words = eight(alloc, &mut occurrences);
    // As a call, it takes one step of the proof.
    drop(occurrences);
    words
}

/// The first eight occurrences of the one graph in the other.
fn told(alloc: Global, pattern: &str, target: &str) -> Result<String, Fail> {
    let pattern = pattern_of(alloc, pattern)?;
    let words = told_by(alloc, &pattern, target);
    drop(pattern);
    words
}

/// The first eight occurrences of a pattern in the graph of these words.
fn told_by(alloc: Global, pattern: &Pattern, target: &str) -> Result<String, Fail> {
    let target = graph(alloc, target)?;
    let words = told_in(alloc, pattern, &target);
    drop(target);
    words
}

#[test]
fn patterns_have_occurrences(rt: HostRuntime) -> Result<(), Fail> {
    let alloc = rt.alloc();
    for (pattern, target, wanted) in [
        ("f f *", "f f *", " 0 1: 0 1 2 3; 1 0: 2 3 0 1;-;-;-;-;-;-;"),
        ("f f *", "f f ;", "-;-;-;-;-;-;-;-;"),
        ("u id * m ;", "u u * m ;", " 0 2: 0 1 2;-;-;-;-;-;-;-;"),
        ("id id *", "f", "-;-;-;-;-;-;-;-;"),
        ("id0", "f g ;", ":;-;-;-;-;-;-;-;"),
        ("f h *", "f g ; h ;", "-;-;-;-;-;-;-;-;"),
        ("f h *", "f g * h *", " 0 2: 0 1 4 5;-;-;-;-;-;-;-;"),
        ("id", "f", ": 0;: 1;-;-;-;-;-;-;"),
        ("f id *", "f f ;", "-;-;-;-;-;-;-;-;"),
        ("f f ;", "f f ; f ;", " 0 1: 0 1 2; 1 2: 1 2 3;-;-;-;-;-;-;"),
        (
            "s s *",
            "s s * s *",
            " 0 1:; 0 2:; 1 0:; 1 2:; 2 0:; 2 1:;-;-;",
        ),
    ] {
        assert!(rt;
            are(told(alloc, pattern, target)?, wanted),
            "{pattern} in {target}"
        );
    }
    Ok(())
}

/// How many of the next 65,536 occurrences there are.
fn count(occurrences: &mut Occurrences) -> u32 {
    let mut count: u32 = 0;
    for _ in 0..65_536u32 {
        if occurrences.next().is_some() {
            count = count.saturating_add(1);
        }
    }
    count
}

/// How many occurrences the pattern has.
fn count_in(alloc: Global, pattern: &Pattern, target: &Graph) -> Result<u32, Fail> {
    let listed = Listed::of(alloc, target)?;
    let mut occurrences = Occurrences::new(alloc, pattern, &listed)?;
    let count = count(&mut occurrences);
    drop(occurrences);
    Ok(count)
}

/// How many occurrences the pattern has in the graph of these words.
fn count_by(alloc: Global, pattern: &Pattern, target: &str) -> Result<u32, Fail> {
    let target = graph(alloc, target)?;
    let count = count_in(alloc, pattern, &target);
    drop(target);
    count
}

#[test]
fn scalars_have_as_many_occurrences_as_there_are_arrangements(rt: HostRuntime) -> Result<(), Fail> {
    let alloc = rt.alloc();
    let sixteen = "s s * s * s * s * s * s * s * s * s * s * s * s * s * s * s *";
    let pattern = pattern_of(alloc, "s s * s * s *")?;
    let count = count_by(alloc, &pattern, sixteen);
    drop(pattern);
    assert_eq!(rt; count?, 43_680);
    Ok(())
}
