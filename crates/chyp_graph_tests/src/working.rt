// Steps that are made in place, beside replacement.
ghost use Rattle.std.specs.Prelude.{IfOk};
ghost use Rattle.chyp_pattern.specs.Occurrence.{IsOccurrence};
ghost use Rattle.chyp_pattern.specs.Replacement.{IsGraphRule};
ghost use Rattle.chyp_work.specs.Net.{plain};

use crate::diagrams::{are, graph, told};
use crate::graphs::is_small;
use crate::replacing::{replaced_at, sides};
use chyp_graph::Graph;
use chyp_match::{Listed, Occurrences};
use chyp_pattern::{Occurrence, Pattern};
use chyp_work::Work;
use std::alloc::Global;
use std::test::Fail;

/// The plain graph in words.
fn told_plain(alloc: Global, work: &Work) -> Result<String, Fail> {
    let graph = work.graph()?;
    let words = told(alloc, &graph);
    // As a call, it takes one step of the proof.
    drop(graph);
    words
}

/// Makes a step at this occurrence, which names edges and wires by their places.
fn step(work: &mut Work, left: &Pattern, right: &Graph, at: &Occurrence) -> Result<(), Fail>
    requires rule { IsGraphRule left.now.graph right.now }
    requires occurrence { IsOccurrence left.now.graph (plain work.old) at.now.edges at.now.wires }
{
    let graph = work.graph()?;
    let small = is_small(&graph) && is_small(right);
    drop(graph);
    if !small {
        return Err(Fail::new("a big graph"));
    }
    let at = work.numbered(at)?;
    let stepped = work.step(left, right, &at);
    drop(at);
    Ok(stepped?)
}

/// Replaces this occurrence, and makes the step at it in place. It answers whether both give one graph.
fn step_both(
    alloc: Global,
    work: &mut Work,
    rule: &(Pattern, Graph),
    at: &Occurrence,
) -> Result<bool, Fail>
    requires rule { IsGraphRule rule.now.0.graph rule.now.1 }
    requires occurrence { IsOccurrence rule.now.0.graph (plain work.old) at.now.edges at.now.wires }
{
    let target = work.graph()?;
    let wanted = replaced_at(alloc, &target, &rule.0, &rule.1, at);
    drop(target);
    let wanted = wanted?;
    step(work, &rule.0, &rule.1, at)?;
    Ok(are(told_plain(alloc, work)?, &wanted))
}

/// A copy of the next occurrence.
fn next(alloc: Global, occurrences: &mut Occurrences) -> Result<Occurrence, Fail>
    ensures { IfOk result (λ at. IsOccurrence occurrences.old.pattern.graph occurrences.old.graph at.edges at.wires) }
{
    match occurrences.next() {
        Some(at) => Ok(at.copy(alloc)?),
        None => Err(Fail::new("no occurrence")),
    }
}

/// A copy of the first occurrence of the pattern in the graph.
fn first(alloc: Global, pattern: &Pattern, target: &Graph) -> Result<Occurrence, Fail>
    ensures { IfOk result (λ at. IsOccurrence pattern.now.graph target.now at.edges at.wires) }
{
    let listed = Listed::of(alloc, target)?;
    let mut occurrences = Occurrences::new(alloc, pattern, &listed)?;
    let at = next(alloc, &mut occurrences);
    drop(occurrences);
    at
}

/// Makes a step at the first occurrence in both ways, and answers whether they give one graph.
fn step_first(alloc: Global, work: &mut Work, rule: &(Pattern, Graph)) -> Result<bool, Fail>
    requires { IsGraphRule rule.now.0.graph rule.now.1 }
{
    let target = work.graph()?;
    let at = first(alloc, &rule.0, &target);
    drop(target);
    let at = at?;
    let same = step_both(alloc, work, rule, &at);
    drop(at);
    same
}

/// Makes so many steps in both ways, and answers whether each gives one graph.
fn step_on(
    alloc: Global,
    work: &mut Work,
    rule: &(Pattern, Graph),
    count: u32,
) -> Result<bool, Fail>
    requires { IsGraphRule rule.now.0.graph rule.now.1 }
{
    for _ in 0..count {
        if !step_first(alloc, work, rule)? {
            return Ok(false);
        }
    }
    Ok(true)
}

/// So many steps from the graph of these words on.
fn step_from(alloc: Global, words: &str, rule: &(Pattern, Graph), count: u32) -> Result<bool, Fail>
    requires { IsGraphRule rule.now.0.graph rule.now.1 }
{
    let graph = graph(alloc, words)?;
    let work = Work::of(&graph);
    drop(graph);
    let mut work = work?;
    let same = step_on(alloc, &mut work, rule, count);
    drop(work);
    same
}

/// So many steps from the graph of the first words on, by the rule of the others.
fn steps_agree(alloc: Global, words: &str, rule: (&str, &str), count: u32) -> Result<bool, Fail> {
    let rule = sides(alloc, rule.0, rule.1)?;
    let same = step_from(alloc, words, &rule, count);
    drop(rule);
    same
}

#[test]
fn steps_in_place_are_replacements(rt: HostRuntime) -> Result<(), Fail> {
    let alloc = rt.alloc();
    for (words, left, right, count) in [
        // an edge and a wire go
        ("u u * m ;", "u id * m ;", "id", 1u32),
        // edges go one after the other, and their numbers are given again
        ("f f ; f ;", "f f ;", "f", 2),
        // edges come
        ("f", "f", "f f ;", 3),
        // the two ends of an edge are joined, and a wire is split
        ("f f *", "f", "id", 2),
        ("u v ;", "id", "f", 2),
        // wires cross
        ("f f *", "f f *", "sw", 1),
        // nothing comes for what is alone, and comes beside it
        ("s s *", "s", "id0", 2),
        ("f", "id0", "s", 2),
    ] {
        assert!(rt;
            steps_agree(alloc, words, (left, right), count)?,
            "{words} by {left} = {right}"
        );
    }
    Ok(())
}
