// Comparisons of terms by their normal forms.
ghost use Rattle.std.specs.Prelude.{All, IfOk, map};
ghost use Rattle.std.specs.Bool.{MatchBool};
ghost use Rattle.chyp_term.specs.Derivation.{IsEquation};
ghost use Rattle.chyp_term.specs.Equation.{equations_of};
ghost use Rattle.chyp_term.specs.Limits.{IsWithinLimits};
ghost use Rattle.chyp_term.specs.Morphism.{IsTyped};
ghost use Rattle.chyp_term.specs.Term.{morphism_of};
ghost use Rattle.chyp_graph.specs.GraphOf.{graph_of};
ghost use Rattle.chyp_graph.specs.Isomorphism.{Isomorphic};
ghost use Rattle.chyp_graph.specs.Validity.{IsValid};
ghost use Rattle.chyp_simp.specs.Comparing.{IsComparison};
ghost use Rattle.chyp_simp.specs.Laws.{AreUsable};
ghost use Rattle.chyp_simp.specs.Run.{Ends};
ghost use Rattle.chyp_simplifier.specs.Rule.{IsRule, graphs_of};

use crate::{Comparison, Ending, Rule, rules_of, run};
use chyp_base::NoMemory;
use chyp_extract::extracted_decides_graphs;
use chyp_graph::Graph;
use chyp_iso::{Scratch, same};
use chyp_term::{Equation, Term};
use std::alloc::Global;

/// Compares two terms of one type by the normal forms to which the equations lead them, each as a rule
/// from its left side to its right. All terms are within the limits on one term. It is equal exactly
/// where both runs end in normal forms whose equation the monoidal laws give; a run that ends in none
/// decides, that from the first term before that from the second.
///
/// # Errors
///
/// `NoMemory` where a graph can't be kept, searched or compared.
pub fn compare(
    alloc: Global,
    from: &Term,
    to: &Term,
    equations: &[Equation],
) -> Result<Comparison, NoMemory>
    requires equation { IsEquation (morphism_of from.now) (morphism_of to.now) }
    requires within_from { IsWithinLimits (morphism_of from.now) }
    requires within_to { IsWithinLimits (morphism_of to.now) }
    requires equations { AreUsable (equations_of equations.now) }
    ensures { IfOk result (IsComparison (equations_of equations.now) (morphism_of from.now) (morphism_of to.now)) }
{
    extracted_decides_graphs();
    let rules = rules_of(alloc, equations)?;
    let first = match run_from(alloc, &rules, from)? {
        Ending::NormalForm(form) => form,
        Ending::TooWide { placements } => return Ok(Comparison::TooWide { placements }),
        Ending::AtLimit => return Ok(Comparison::AtLimit),
    };
    let second = match run_from(alloc, &rules, to)? {
        Ending::NormalForm(form) => form,
        Ending::TooWide { placements } => return Ok(Comparison::TooWide { placements }),
        Ending::AtLimit => return Ok(Comparison::AtLimit),
    };
    if are_same(&first, &second)? {
        Ok(Comparison::Equal)
    } else {
        Ok(Comparison::Different)
    }
}

/// The run of the rules from the graph of the term.
fn run_from(alloc: Global, rules: &[Rule], term: &Term) -> Result<Ending, NoMemory>
    requires typed { IsTyped (morphism_of term.now) }
    requires within { IsWithinLimits (morphism_of term.now) }
    requires rules { All IsRule rules.now }
    ensures { IfOk result (Ends (map graphs_of rules.now) (graph_of (morphism_of term.now))) }
{
    run(rules, Graph::of_term(alloc, term)?)
}

/// Whether the graphs are isomorphic.
fn are_same(first: &Graph, second: &Graph) -> Result<bool, NoMemory>
    ensures outcome { IfOk result (λ outcome. MatchBool outcome (Isomorphic first.now second.now) (Isomorphic first.now second.now → ⊥)) }
    ensures first { IsValid first.now }
    ensures second { IsValid second.now }
{
    first.valid();
    second.valid();
    let edges = first.edge_count().max(second.edge_count());
    let wires = first.wire_count().max(second.wire_count());
    let mut scratch = Scratch::for_sizes(first.allocator(), edges, wires)?;
    Ok(same(&mut scratch, first, second).is_some())
}
