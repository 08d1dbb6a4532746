// Components of graphs, and their placements.
use crate::diagrams::{are, graph};
use chyp_match::placements;
use chyp_pattern::Pattern;
use std::alloc::Global;
use std::test::Fail;

/// The pattern of these words.
pub(crate) fn pattern_of(alloc: Global, words: &str) -> Result<Pattern, Fail> {
    Ok(Pattern::of(graph(alloc, words)?)?)
}

/// The components of a pattern, by their first edges or their wires.
fn told(alloc: Global, pattern: &Pattern) -> Result<String, Fail> {
    let mut told = format!(in alloc; "{} edges:", pattern.graph().edge_count())?;
    for k in 0..pattern.component_count() {
        told = format!(in alloc; "{told} {:?}", pattern.anchor(k))?;
    }
    Ok(told)
}

/// The components of the graph of these words.
fn components(alloc: Global, words: &str) -> Result<String, Fail> {
    let pattern = pattern_of(alloc, words)?;
    let words = told(alloc, &pattern);
    // As a call, it takes one step of the proof.
    drop(pattern);
    words
}

#[test]
fn graphs_have_their_components(rt: HostRuntime) -> Result<(), Fail> {
    let alloc = rt.alloc();
    for (words, told) in [
        ("f g ;", "2 edges: Edge(EdgeId(0))"),
        ("f g * sw ;", "2 edges: Edge(EdgeId(0)) Edge(EdgeId(1))"),
        ("f u * m ; s *", "4 edges: Edge(EdgeId(0)) Edge(EdgeId(3))"),
        (
            "id2 f *",
            "1 edges: Edge(EdgeId(0)) Wire(WireId(0)) Wire(WireId(1))",
        ),
    ] {
        assert!(rt; are(components(alloc, words)?, told), "{words}");
    }
    Ok(())
}

/// How many placements the one graph has in the other.
fn count(alloc: Global, pattern: &str, target: &str) -> Result<u64, Fail> {
    let pattern = pattern_of(alloc, pattern)?;
    let target = graph(alloc, target)?;
    Ok(placements(&pattern, &target))
}

#[test]
fn patterns_have_placements(rt: HostRuntime) -> Result<(), Fail> {
    let alloc = rt.alloc();
    for (pattern, target, wanted) in [
        ("f f *", "f f *", 4),
        ("f f *", "f f ;", 4),
        ("u id * m ;", "u u * m ;", 2),
        ("id id *", "f", 4),
        ("id0", "f", 1),
        ("f g * f *", "f g * f *", 4),
        ("f s *", "f", 0),
    ] {
        assert_eq!(rt; count(alloc, pattern, target)?, wanted);
    }
    Ok(())
}
