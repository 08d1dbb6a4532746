// Occurrences that are replaced.
ghost use Rattle.std.specs.Prelude.{◌≡◌, IfOk};
ghost use Rattle.chyp_term.specs.Equation.{equation_of};
ghost use Rattle.chyp_pattern.specs.Occurrence.{IsOccurrence};
ghost use Rattle.chyp_pattern.specs.Replacement.{IsGraphRule};
ghost use Rattle.chyp_simp.specs.Laws.{IsUsable};

use crate::diagrams::{are, graph, graph_of, told};
use crate::graphs::is_small;
use crate::judging::rule;
use chyp_graph::Graph;
use chyp_match::{Listed, Occurrences};
use chyp_pattern::{Occurrence, Pattern};
use chyp_replace::replace;
use chyp_term::Equation;
use std::alloc::Global;
use std::test::Fail;

/// The graph in words with this occurrence of the left side replaced by the right side.
pub(crate) fn replaced_at(
    alloc: Global,
    target: &Graph,
    left: &Pattern,
    right: &Graph,
    at: &Occurrence,
) -> Result<String, Fail>
    requires rule { IsGraphRule left.now.graph right.now }
    requires occurrence { IsOccurrence left.now.graph target.now at.now.edges at.now.wires }
{
    if !is_small(target) || !is_small(right) {
        return Err(Fail::new("a big graph"));
    }
    let new = replace(alloc, target, left, right, at)?;
    let words = told(alloc, &new);
    // As a call, it takes one step of the proof.
    drop(new);
    words
}

/// The graph in words with the next occurrence of the left side replaced by the right side.
fn next_replaced(
    alloc: Global,
    target: &Graph,
    left: &Pattern,
    right: &Graph,
    occurrences: &mut Occurrences,
) -> Result<String, Fail>
    requires rule { IsGraphRule left.now.graph right.now }
    requires pattern { occurrences.old.pattern ≡ left.now }
    requires graph { occurrences.old.graph ≡ target.now }
{
    match occurrences.next() {
        Some(at) => replaced_at(alloc, target, left, right, at),
        None => Err(Fail::new("no occurrence")),
    }
}

/// The graph in words with the first occurrence of the left side replaced by the right side.
fn replaced(alloc: Global, target: &Graph, left: &Pattern, right: &Graph) -> Result<String, Fail>
    requires { IsGraphRule left.now.graph right.now }
{
    let listed = Listed::of(alloc, target)?;
    let mut occurrences = Occurrences::new(alloc, left, &listed)?;
    let words = next_replaced(alloc, target, left, right, &mut occurrences);
    drop(occurrences);
    words
}

/// The graphs of the sides of a rule.
fn graphs_of(alloc: Global, rule: &Equation) -> Result<(Pattern, Graph), Fail>
    requires { IsUsable (equation_of rule.now) }
    ensures { IfOk result (λ sides. IsGraphRule sides.0.graph sides.1) }
{
    let left = Pattern::of(graph_of(alloc, &rule.left)?)?;
    Ok((left, graph_of(alloc, &rule.right)?))
}

/// The graphs of the sides of the rule of these words.
pub(crate) fn sides(alloc: Global, left: &str, right: &str) -> Result<(Pattern, Graph), Fail>
    ensures { IfOk result (λ sides. IsGraphRule sides.0.graph sides.1) }
{
    let rule = rule(alloc, left, right)?;
    let sides = graphs_of(alloc, &rule);
    drop(rule);
    sides
}

/// The graph of these words with the first occurrence of the left side replaced by the right side.
fn rewritten_by(alloc: Global, target: &str, left: &Pattern, right: &Graph) -> Result<String, Fail>
    requires { IsGraphRule left.now.graph right.now }
{
    let target = graph(alloc, target)?;
    let words = replaced(alloc, &target, left, right);
    drop(target);
    words
}

/// The graph of the first words with the first occurrence of that of the second replaced by that of the third.
fn rewritten(alloc: Global, target: &str, left: &str, right: &str) -> Result<String, Fail> {
    let (left, right) = sides(alloc, left, right)?;
    let words = rewritten_by(alloc, target, &left, &right);
    drop(left);
    drop(right);
    words
}

#[test]
fn occurrences_are_replaced(rt: HostRuntime) -> Result<(), Fail> {
    let alloc = rt.alloc();
    for (target, left, right, wanted) in [
        ("f", "id0", "s", "2 wires; f 0 -> 1; s ->; 0 -> 1"),
        ("u u * m ;", "u id * m ;", "id", "1 wires; u -> 0; -> 0"),
    ] {
        assert!(rt;
            are(rewritten(alloc, target, left, right)?, wanted),
            "{target}"
        );
    }
    Ok(())
}
