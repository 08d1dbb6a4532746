// Steps that are judged.
ghost use Rattle.std.specs.Prelude.{◌≡◌, ◌≤◌, IfOk, IsTrue};
ghost use Rattle.chyp_term.specs.Derivation.{IsEquation};
ghost use Rattle.chyp_term.specs.Equation.{equation_of};
ghost use Rattle.chyp_term.specs.Limits.{IsWithinLimits};
ghost use Rattle.chyp_term.specs.Morphism.{IsTyped};
ghost use Rattle.chyp_term.specs.Step.{reason_of};
ghost use Rattle.chyp_term.specs.Term.{morphism_of};
ghost use Rattle.chyp_simp.specs.Laws.{IsUsable};
ghost use Rattle.chyp_judge.specs.Judged.{CanBeJudged};

use crate::diagrams::{are, checked, rewired, typed};
use chyp_judge::{Judged, judge};
use chyp_term::{Equation, Step, Term, shape_of};
use std::alloc::Global;
use std::test::Fail;

/// Two terms in words.
type Pair = (&'static str, &'static str);

/// Whether both terms are typed, and have one type.
pub(crate) fn have_one_type(alloc: Global, from: &Term, to: &Term) -> bool
    ensures { IsTrue result → IsEquation (morphism_of from.now) (morphism_of to.now) }
{
    match (shape_of(alloc, from), shape_of(alloc, to)) {
        (Ok(first), Ok(second)) => first.dom == second.dom && first.cod == second.cod,
        _ => false,
    }
}

/// The equation of two terms within the limits.
fn equation(alloc: Global, left: Term, right: Term) -> Result<Equation, Fail>
    requires left { IsWithinLimits (morphism_of left) }
    requires right { IsWithinLimits (morphism_of right) }
    ensures { IfOk result (λ equation. IsUsable (equation_of equation)) }
{
    if have_one_type(alloc, &left, &right) {
        return Ok(Equation { left, right });
    }
    Err(Fail::new("sides of two types"))
}

/// The rule of these sides.
pub(crate) fn rule(alloc: Global, left: &str, right: &str) -> Result<Equation, Fail>
    ensures { IfOk result (λ rule. IsUsable (equation_of rule)) }
{
    let left = typed(alloc, left)?;
    equation(alloc, left, typed(alloc, right)?)
}

/// The step by the rule of these sides.
fn by_rule(alloc: Global, left: &str, right: &str) -> Result<Step, Fail>
    ensures { IfOk result (λ step. CanBeJudged (reason_of step)) }
{
    Ok(Step::ByRule(rule(alloc, left, right)?))
}

/// The judgement on a step from the left term to the right one.
fn judged(alloc: Global, ends: &Equation, step: &Step) -> Result<Judged, Fail>
    requires ends { IsUsable (equation_of ends.now) }
    requires step { CanBeJudged (reason_of step.now) }
{
    Ok(judge(alloc, &ends.left, &ends.right, step)?)
}

/// The judgement on a step from the left term to the right one, by the rule of these sides.
fn judged_by(alloc: Global, ends: &Equation, sides: Pair) -> Result<Judged, Fail>
    requires { IsUsable (equation_of ends.now) }
{
    let step = by_rule(alloc, sides.0, sides.1)?;
    let judged = judged(alloc, ends, &step);
    // As a call, it takes one step of the proof.
    drop(step);
    judged
}

/// A judgement in words.
fn in_words(alloc: Global, judged: Judged) -> Result<String, Fail> {
    Ok(format!(in alloc; "{judged:?}")?)
}

/// The judgement in words on a step by the laws.
fn told_by_laws(alloc: Global, from: &str, to: &str) -> Result<String, Fail> {
    let ends = rule(alloc, from, to)?;
    let judged = judged(alloc, &ends, &Step::Refl);
    drop(ends);
    in_words(alloc, judged?)
}

#[test]
fn steps_by_the_laws_are_judged(rt: HostRuntime) -> Result<(), Fail> {
    let alloc = rt.alloc();
    for (from, to, wanted) in [("f", "g", "Differs"), ("f g * sw ;", "sw g f * ;", "Good")] {
        assert!(rt;
            are(told_by_laws(alloc, from, to)?, wanted),
            "{from} to {to}"
        );
    }
    Ok(())
}

/// The judgement in words on a step from the one term to the other, by the rule of these sides.
fn told(alloc: Global, ends: Pair, sides: Pair) -> Result<String, Fail> {
    let ends = rule(alloc, ends.0, ends.1)?;
    let judged = judged_by(alloc, &ends, sides);
    drop(ends);
    in_words(alloc, judged?)
}

const SIXTEEN: &str = "s s * s * s * s * s * s * s * s * s * s * s * s * s * s * s *";

const SEVENTEEN: &str = "s s * s * s * s * s * s * s * s * s * s * s * s * s * s * s * s *";

// Steps, with the sides of the rules that they go by, and the judgements on them.
const STEPS: [(Pair, Pair, &str); 20] = [
    (
        ("f g ; h ;", "h g ; f ;"),
        ("f h *", "h f *"),
        "NoRewrite { occurrences: 0 }",
    ),
    (("u u * m ;", "u"), ("u id * m ;", "id"), "Good"),
    (("f", "u f * m ;"), ("id", "u id * m ;"), "Good"),
    (("f", "f s *"), ("id0", "s"), "Good"),
    (("f", "f"), ("id0", "s"), "NoRewrite { occurrences: 1 }"),
    (
        ("f", "f"),
        ("id id *", "sw"),
        "NoRewrite { occurrences: 0 }",
    ),
    (("f f *", "f f * sw ;"), ("f f *", "f f * sw ;"), "Good"),
    (
        ("f f ;", "f f ;"),
        ("f f *", "f f *"),
        "NoRewrite { occurrences: 0 }",
    ),
    (("f f ; f ;", "g f ;"), ("f f ;", "g"), "Good"),
    (("f f ; f ;", "f g ;"), ("f f ;", "g"), "Good"),
    (
        ("f f ; f ;", "g g ;"),
        ("f f ;", "g"),
        "NoRewrite { occurrences: 2 }",
    ),
    // Occurrences that leave a difference are passed over.
    (("f f ; f ; f ;", "f f ; g ;"), ("f f ;", "g"), "Good"),
    (("f f ; f ; f ;", "f g ; f ;"), ("f f ;", "g"), "Good"),
    (
        ("f f ; f ; f ;", "f h ; f ;"),
        ("f f ;", "g"),
        "NoRewrite { occurrences: 3 }",
    ),
    (("f f * f *", "f f * g *"), ("f", "g"), "Good"),
    (
        ("f f * f *", "f g * h *"),
        ("f", "g"),
        "NoRewrite { occurrences: 3 }",
    ),
    (("id id * id *", "id id * f *"), ("id", "f"), "Good"),
    (
        ("id id * id *", "g f * f *"),
        ("id", "f"),
        "NoRewrite { occurrences: 3 }",
    ),
    // Scalars have many occurrences, or too many placements.
    (
        (SIXTEEN, SIXTEEN),
        ("s s * s * s *", "s"),
        "NoRewrite { occurrences: 43680 }",
    ),
    (
        (SEVENTEEN, SEVENTEEN),
        ("s s * s * s *", "s"),
        "TooWide { placements: 83521 }",
    ),
];

#[test]
fn steps_by_a_rule_are_judged(rt: HostRuntime) -> Result<(), Fail> {
    let alloc = rt.alloc();
    for (ends, sides, wanted) in STEPS {
        assert!(rt;
            are(told(alloc, ends, sides)?, wanted),
            "{} to {}",
            ends.0,
            ends.1
        );
    }
    Ok(())
}

/// So many wires, side by side.
fn wires(alloc: Global, count: u32) -> Result<Term, Fail>
    ensures { IfOk result (λ term. IsWithinLimits (morphism_of term)) }
{
    let mut places = Vec::new(alloc);
    for place in 0..count {
        places.push(place)?;
    }
    checked(alloc, rewired(alloc, count, &places)?)
}

/// The judgement on a step from so many wires to themselves, by a rule whose left side is one wire.
fn judged_wires(alloc: Global, count: u32) -> Result<Judged, Fail> {
    let from = wires(alloc, count)?;
    let ends = equation(alloc, from, wires(alloc, count)?)?;
    let judged = judged_by(alloc, &ends, ("id", "id"));
    drop(ends);
    judged
}

#[test]
fn most_placements_are_65536(rt: HostRuntime) -> Result<(), Fail> {
    let alloc = rt.alloc();
    assert_eq!(rt; judged_wires(alloc, 65_536)?, Judged::Good);
    let wide = Judged::TooWide { placements: 65_537 };
    assert_eq!(rt; judged_wires(alloc, 65_537)?, wide);
    Ok(())
}
