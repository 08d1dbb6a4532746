// Judging one step of a rewrite.
ghost use Rattle.std.specs.Prelude.{◌≡◌, ◌≤◌, IfOk};
ghost use Rattle.chyp_term.specs.Derivation.{IsEquation};
ghost use Rattle.chyp_term.specs.Equation.{equation_of, equations_of};
ghost use Rattle.chyp_term.specs.Limits.{IsWithinLimits, most_size};
ghost use Rattle.chyp_term.specs.Measure.{size_of};
ghost use Rattle.chyp_term.specs.Step.{by_laws, by_rule, by_simp, reason_of};
ghost use Rattle.chyp_term.specs.Term.{morphism_of};
ghost use Rattle.chyp_judge.specs.Judged.{CanBeJudged, IsJudgement};

use crate::rewrite::{Rewrite, judge_rewrite};
use crate::{Judged, MOST_PLACEMENTS};
use chyp_base::NoMemory;
use chyp_graph::Graph;
use chyp_iso::{Scratch, same};
use chyp_laws::{graphs_decide_the_laws, rewrites_are_graphs};
use chyp_match::{occurrences_are_few, placements};
use chyp_pattern::Pattern;
use chyp_simplifier::{Comparison, compare};
use chyp_term::{Equation, Step, Term};
use std::alloc::Global;

/// Judges the step from one term to another that has its type, both within the limits on one term: by
/// the monoidal laws alone, by a rule, whose sides are within these limits too, or by the normal forms to
/// which such rules lead.
///
/// # Errors
///
/// `NoMemory` where the graphs of the terms can't be kept, searched or compared.
pub fn judge(alloc: Global, from: &Term, to: &Term, step: &Step) -> Result<Judged, NoMemory>
    requires equation { IsEquation (morphism_of from.now) (morphism_of to.now) }
    requires within_from { IsWithinLimits (morphism_of from.now) }
    requires within_to { IsWithinLimits (morphism_of to.now) }
    requires step { CanBeJudged (reason_of step.now) }
    ensures { IfOk result (λ judged. IsJudgement (reason_of step.now) (morphism_of from.now) (morphism_of to.now) judged) }
{
    match step {
        Step::Refl => judge_by_laws(alloc, from, to),
        Step::ByRule(rule) => judge_by_rule(alloc, from, to, rule),
        Step::Simp(rules) => judge_by_simp(alloc, from, to, rules.as_slice()),
    }
}

/// Good exactly where the graphs of the terms are isomorphic.
fn judge_by_laws(alloc: Global, from: &Term, to: &Term) -> Result<Judged, NoMemory>
    requires equation { IsEquation (morphism_of from.now) (morphism_of to.now) }
    requires small_from { size_of (morphism_of from.now) ≤ most_size }
    requires small_to { size_of (morphism_of to.now) ≤ most_size }
    ensures { IfOk result (λ judged. IsJudgement by_laws (morphism_of from.now) (morphism_of to.now) judged) }
{
    graphs_decide_the_laws();
    let first = Graph::of_term(alloc, from)?;
    let second = Graph::of_term(alloc, to)?;
    let edges = first.edge_count().max(second.edge_count());
    let wires = first.wire_count().max(second.wire_count());
    let mut scratch = Scratch::for_sizes(alloc, edges, wires)?;
    match same(&mut scratch, &first, &second) {
        Some(_) => Ok(Judged::Good),
        None => Ok(Judged::Differs),
    }
}

/// Good exactly where the rule rewrites the one term to the other in some context.
fn judge_by_rule(alloc: Global, from: &Term, to: &Term, rule: &Equation) -> Result<Judged, NoMemory>
    requires equation { IsEquation (morphism_of from.now) (morphism_of to.now) }
    requires within_from { IsWithinLimits (morphism_of from.now) }
    requires within_to { IsWithinLimits (morphism_of to.now) }
    requires rule { CanBeJudged (by_rule (equation_of rule.now)) }
    ensures { IfOk result (λ judged. IsJudgement (by_rule (equation_of rule.now)) (morphism_of from.now) (morphism_of to.now) judged) }
{
    rewrites_are_graphs();
    occurrences_are_few();
    let from = Graph::of_term(alloc, from)?;
    let left = Pattern::of(Graph::of_term(alloc, &rule.left)?)?;
    let placements = placements(&left, &from);
    if placements > MOST_PLACEMENTS {
        return Ok(Judged::TooWide { placements });
    }
    let right = Graph::of_term(alloc, &rule.right)?;
    let to = Graph::of_term(alloc, to)?;
    judge_rewrite(
        alloc,
        &Rewrite {
            from,
            left,
            right,
            to,
        },
    )
}

/// As the normal forms compare to which the rules lead the terms.
fn judge_by_simp(
    alloc: Global,
    from: &Term,
    to: &Term,
    rules: &[Equation],
) -> Result<Judged, NoMemory>
    requires equation { IsEquation (morphism_of from.now) (morphism_of to.now) }
    requires within_from { IsWithinLimits (morphism_of from.now) }
    requires within_to { IsWithinLimits (morphism_of to.now) }
    requires rules { CanBeJudged (by_simp (equations_of rules.now)) }
    ensures { IfOk result (λ judged. IsJudgement (by_simp (equations_of rules.now)) (morphism_of from.now) (morphism_of to.now) judged) }
{
    match compare(alloc, from, to, rules)? {
        Comparison::Equal => Ok(Judged::Good),
        Comparison::Different => Ok(Judged::SimpDiffers),
        Comparison::TooWide { placements } => Ok(Judged::TooWide { placements }),
        Comparison::AtLimit => Ok(Judged::SimpLimit),
    }
}
