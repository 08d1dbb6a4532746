// Single rewrites.
ghost use Rattle.std.specs.Prelude.{All, IfOk, map};
ghost use Rattle.chyp_simplifier.specs.Rule.{IsRule, graphs_of};
ghost use Rattle.chyp_simplifier.specs.Round.{Applies, Does, HasRoom, IsRewritten};

use crate::Rule;
use chyp_base::NoMemory;
use chyp_graph::Graph;
use chyp_match::{Listed, Occurrences, occurrences_are_few, placements};
use chyp_replace::replace;
use chyp_simp::MOST_PLACEMENTS;

/// What rules do to a graph.
#[derive(Drop)]
pub(crate) enum Round {
    /// Nothing: none has an occurrence.
    Idle,
    /// Nothing: one comes to a rule that has too many placements.
    TooWide {
        /// How many there are, or 2^64 - 1 where there are more.
        placements: u64,
    },
    /// A rewrite to this graph.
    Rewritten(Graph),
}

/// What the rules do to the graph, the first that has an occurrence at its least one.
pub(crate) fn apply_first(rules: &[Rule], graph: &Graph) -> Result<Round, NoMemory>
    requires rules { All IsRule rules.now }
    requires room { HasRoom graph.now }
    ensures { IfOk result (Does (map graphs_of rules.now) graph.now) }
{
    for rule in rules {
        match apply(rule, graph)? {
            Round::Idle => {}
            done => return Ok(done),
        }
    }
    Ok(Round::Idle)
}

/// What one rule does to the graph, at its least occurrence.
fn apply(rule: &Rule, graph: &Graph) -> Result<Round, NoMemory>
    requires rule { IsRule rule.now }
    requires room { HasRoom graph.now }
    ensures { IfOk result (Applies (graphs_of rule.now) graph.now) }
{
    occurrences_are_few();
    graph.valid();
    let placements = placements(&rule.left, graph);
    if placements > MOST_PLACEMENTS {
        return Ok(Round::TooWide { placements });
    }
    if placements == 0 {
        return Ok(Round::Idle);
    }
    rewrite(rule, graph)
}

/// The graph with the least occurrence of the left side replaced by the right side, if there is one.
fn rewrite(rule: &Rule, graph: &Graph) -> Result<Round, NoMemory>
    requires rule { IsRule rule.now }
    requires room { HasRoom graph.now }
    ensures { IfOk result (IsRewritten (graphs_of rule.now) graph.now) }
{
    let alloc = graph.allocator();
    let listed = Listed::of(alloc, graph)?;
    let mut occurrences = Occurrences::new(alloc, &rule.left, &listed)?;
    match occurrences.next() {
        Some(at) => {
            let new = replace(alloc, graph, &rule.left, &rule.right, at)?;
            Ok(Round::Rewritten(new))
        }
        None => Ok(Round::Idle),
    }
}
