// The n-th rewrite of a term.
ghost use Rattle.std.specs.Prelude.{◌≡◌, ◌+◌, ◌<◌, ◌≤◌, ◌^◌, IfOk, length};
ghost use Rattle.std.specs.Bool.{MatchBool};
ghost use Rattle.chyp_term.specs.Derivation.{IsEquation};
ghost use Rattle.chyp_term.specs.Equation.{equation_of};
ghost use Rattle.chyp_term.specs.Limits.{IsWithinLimits, most_depth, most_generators, most_size};
ghost use Rattle.chyp_term.specs.Morphism.{IsTyped};
ghost use Rattle.chyp_term.specs.Term.{morphism_of};
ghost use Rattle.chyp_extract.specs.Extraction.{extracted};
ghost use Rattle.chyp_judge.specs.Rewrite.{AreAll, IsBegun, IsGiven};
ghost use Rattle.chyp_nth.specs.Nth.{IsNth, IsNthOf, IsReadBack, IsRedex};

use crate::Nth;
use crate::redex::Redex;
use chyp_base::NoMemory;
use chyp_extractor::{Measures, extract, measure};
use chyp_graph::Graph;
use chyp_match::{Listed, Occurrences, occurrences_are_few, placements};
use chyp_pattern::Pattern;
use chyp_replace::replace;
use chyp_simp::MOST_PLACEMENTS;
use chyp_term::{Equation, MOST_DEPTH, MOST_GENERATORS, MOST_SIZE, Term};
use std::alloc::Global;

/// The n-th rewrite of the term by the rule, counted from 0 in lexicographic order of the occurrences
/// of its left side: the term that is read back from the graph of the term with the occurrence
/// replaced. All three terms are within the limits on one term.
///
/// # Errors
///
/// `NoMemory` where the graphs, the occurrences or the term can't be kept.
pub fn nth_rewrite(alloc: Global, from: &Term, rule: &Equation, n: u64) -> Result<Nth, NoMemory>
    requires typed { IsTyped (morphism_of from.now) }
    requires within { IsWithinLimits (morphism_of from.now) }
    requires rule { IsEquation (equation_of rule.now).0 (equation_of rule.now).1 }
    requires within_left { IsWithinLimits (equation_of rule.now).0 }
    requires within_right { IsWithinLimits (equation_of rule.now).1 }
    ensures { IfOk result (IsNth (equation_of rule.now) (morphism_of from.now) n) }
{
    occurrences_are_few();
    let graph = Graph::of_term(alloc, from)?;
    let left = Pattern::of(Graph::of_term(alloc, &rule.left)?)?;
    let placements = placements(&left, &graph);
    if placements > MOST_PLACEMENTS {
        return Ok(Nth::TooWide { placements });
    }
    let right = Graph::of_term(alloc, &rule.right)?;
    nth_of(alloc, &Redex { graph, left, right }, n)
}

/// The n-th rewrite of a graph, read back.
fn nth_of(alloc: Global, redex: &Redex, n: u64) -> Result<Nth, NoMemory>
    requires { IsRedex redex.now }
    ensures { IfOk result (IsNthOf redex.now n) }
{
    let listed = Listed::of(alloc, &redex.graph)?;
    let mut occurrences = Occurrences::new(alloc, &redex.left, &listed)?;
    nth_among(alloc, redex, &mut occurrences, n)
}

/// The n-th rewrite of a graph, read back, by a search for the occurrences that has given none.
fn nth_among(
    alloc: Global,
    redex: &Redex,
    occurrences: &mut Occurrences,
    n: u64,
) -> Result<Nth, NoMemory>
    requires redex { IsRedex redex.now }
    requires begun { IsBegun occurrences.old }
    requires pattern { occurrences.old.pattern ≡ redex.now.left }
    requires graph { occurrences.old.graph ≡ redex.now.graph }
    ensures { IfOk result (IsNthOf redex.now n) }
{
    let count = pass(occurrences, n);
    if count < n {
        return Ok(Nth::NoSuch { count });
    }
    let Some(at) = occurrences.next() else {
        return Ok(Nth::NoSuch { count });
    };
    let new = replace(alloc, &redex.graph, &redex.left, &redex.right, at)?;
    read_back(alloc, &new)
}

/// Passes by the next occurrences, as many as are said or as there are; how many.
fn pass(occurrences: &mut Occurrences, n: u64) -> u64
    requires { IsBegun occurrences.old }
    ensures given { n ≤ result → IsGiven occurrences.old result occurrences.new }
    ensures most { result ≤ n }
    ensures all { result < n → AreAll occurrences.old result }
{
    for count in 0..n {
        let Some(_) = occurrences.next() else {
            return count;
        };
    }
    n
}

/// Whether a term of these measures is within the limits.
fn is_small(measures: Measures) -> bool
    ensures { MatchBool result
        ((measures.gens ≤ most_generators) × (measures.size ≤ most_size) × (measures.depth ≤ most_depth))
        ((measures.gens ≤ most_generators) × (measures.size ≤ most_size) × (measures.depth ≤ most_depth) → ⊥) }
{
    measures.gens <= MOST_GENERATORS && measures.size <= MOST_SIZE && measures.depth <= MOST_DEPTH
}

/// The term that is read back from a graph, where it is within the limits.
fn read_back(alloc: Global, graph: &Graph) -> Result<Nth, NoMemory>
    ensures { IfOk result (IsReadBack graph.now) }
{
    if !is_small(measure(alloc, graph)?) {
        return Ok(Nth::TooBig);
    }
    Ok(Nth::Rewritten(extract(alloc, graph)?))
}
