// Terms that are compared by rules.
ghost use Rattle.std.specs.Prelude.{All, IfOk};
ghost use Rattle.chyp_term.specs.Equation.{equation_of, equations_of};
ghost use Rattle.chyp_term.specs.Limits.{most_size};
ghost use Rattle.chyp_simp.specs.Laws.{AreUsable, IsUsable};
ghost use Rattle.chyp_simplifier.specs.Rule.{IsRule, IsSmall};

use crate::words::{equation, equations};
use chyp_graph::Graph;
use chyp_simplifier::{Comparison, Ending, Rule, compare, rules_of, run};
use chyp_term::Equation;
use std::alloc::Global;
use std::test::Fail;

/// Rules, each by its two sides.
type Rules<'a> = &'a [[&'static str; 2]];

/// How the two sides compare by the rules.
fn compared_by(alloc: Global, both: &Equation, rules: &[Equation]) -> Result<Comparison, Fail>
    requires both { IsUsable (equation_of both.now) }
    requires rules { AreUsable (equations_of rules.now) }
{
    Ok(compare(alloc, &both.left, &both.right, rules)?)
}

/// How the two sides compare by the rules of these words.
fn compared_in_words(alloc: Global, both: &Equation, rules: Rules<'_>) -> Result<Comparison, Fail>
    requires { IsUsable (equation_of both.now) }
{
    let rules = equations(alloc, rules)?;
    let compared = compared_by(alloc, both, &rules);
    // As a call, it takes one step of the proof.
    drop(rules);
    compared
}

/// How the two sides compare by the rules, all of them in words.
fn compared(alloc: Global, sides: [&str; 2], rules: Rules<'_>) -> Result<Comparison, Fail> {
    let both = equation(alloc, sides[0], sides[1])?;
    let compared = compared_in_words(alloc, &both, rules);
    drop(both);
    compared
}

/// Fails unless the two sides compare so.
fn check(alloc: Global, sides: [&str; 2], rules: Rules<'_>, want: Comparison) -> Result<(), Fail> {
    if compared(alloc, sides, rules)? == want {
        return Ok(());
    }
    Err(Fail::new("another comparison"))
}

// Two sides, the rules, and how the sides compare by them.
const COMPARED: [([&str; 2], Rules<'static>, Comparison); 11] = [
    (["f", "f"], &[], Comparison::Equal),
    (["f", "g"], &[], Comparison::Different),
    (["f f", "g g"], &[["f", "g"]], Comparison::Equal),
    (["f f", "g"], &[["f", "g"]], Comparison::Different),
    (["e e e", ""], &[["e", ""]], Comparison::Equal),
    (["f", "f f"], &[["f", "f f"]], Comparison::AtLimit),
    // The first rule that has an occurrence is applied, at its least one, and then again the first.
    (["f", "g"], &[["f", "g"], ["f", "h"]], Comparison::Equal),
    (["f", "h"], &[["f", "g"], ["f", "h"]], Comparison::Different),
    (["f f f", "g f"], &[["f f", "g"]], Comparison::Equal),
    (["f f f", "f g"], &[["f f", "g"]], Comparison::Different),
    (
        ["g g", "f f"],
        &[["g f", "f g"], ["g", "f"]],
        Comparison::Equal,
    ),
];

#[test]
fn terms_are_compared(rt: HostRuntime) -> Result<(), Fail> {
    for (sides, rules, want) in COMPARED {
        check(rt.alloc(), sides, rules, want)?;
    }
    Ok(())
}

/// A letter so many times.
fn times(alloc: Global, letter: &str, count: u32) -> Result<String, Fail> {
    let mut letters = String::new(alloc);
    for _ in 0..count {
        letters.push_str(letter)?;
        letters.push_str(" ")?;
    }
    Ok(letters)
}

/// Fails unless the rule of four scalars is wide where a run from these many scalars comes to it.
fn check_wide(alloc: Global, many: &str) -> Result<(), Fail> {
    let wide = Comparison::TooWide { placements: 83_521 };
    let four = ["s s s s", "s"];
    check(alloc, [many, ""], &[four], wide)?;
    check(alloc, ["", many], &[four], wide)?;
    check(alloc, [many, "f"], &[four, ["f", "f f"]], wide)?;
    check(
        alloc,
        ["f", many],
        &[["f", "f f"], four],
        Comparison::AtLimit,
    )?;
    check(alloc, [many, ""], &[["s", ""], four], Comparison::Equal)?;
    check(alloc, [many, ""], &[["g", ""], four], wide)
}

#[test]
fn a_rule_is_wide_where_a_run_comes_to_it(rt: HostRuntime) -> Result<(), Fail> {
    let scalars = times(rt.alloc(), "s", 17)?;
    let checked = check_wide(rt.alloc(), &scalars);
    drop(scalars);
    checked
}

/// Fails unless these boxes and one box compare so, from either side, where two boxes are turned into one.
fn check_run(alloc: Global, many: &str, want: Comparison) -> Result<(), Fail> {
    check(alloc, [many, "f"], &[["f f", "f"]], want)?;
    check(alloc, ["f", many], &[["f f", "f"]], want)
}

/// Fails unless a run from so many boxes and more ends so.
fn check_more(alloc: Global, most: &str, more: &str, want: Comparison) -> Result<(), Fail> {
    let many = format!(in alloc; "{most} {more}")?;
    let checked = check_run(alloc, &many, want);
    drop(many);
    checked
}

/// Fails unless a run from these boxes and one more ends, and one from these and two more doesn't.
fn check_limit(alloc: Global, most: &str) -> Result<(), Fail> {
    check_more(alloc, most, "f", Comparison::Equal)?;
    check_more(alloc, most, "f f", Comparison::AtLimit)
}

#[test]
fn a_run_has_256_rewrites(rt: HostRuntime) -> Result<(), Fail> {
    let most = times(rt.alloc(), "F", 16)?;
    let checked = check_limit(rt.alloc(), &most);
    drop(most);
    checked
}

/// The graph of the left side.
fn left_graph(alloc: Global, both: &Equation) -> Result<Graph, Fail>
    requires { IsUsable (equation_of both.now) }
    ensures { IfOk result (IsSmall most_size) }
{
    Ok(Graph::of_term(alloc, &both.left)?)
}

/// Where the rules lead the left side.
fn ended_by(alloc: Global, both: &Equation, rules: &[Rule]) -> Result<Ending, Fail>
    requires both { IsUsable (equation_of both.now) }
    requires rules { All IsRule rules.now }
{
    Ok(run(rules, left_graph(alloc, both)?)?)
}

/// The rules of these words.
fn rules_in_words(alloc: Global, words: Rules<'_>) -> Result<Vec<Rule>, Fail>
    ensures { IfOk result (λ rules. All IsRule rules.items) }
{
    let equations = equations(alloc, words)?;
    let rules = rules_of(alloc, &equations);
    drop(equations);
    Ok(rules?)
}

/// Where the rules of these words lead the left side.
fn ended_in_words(alloc: Global, both: &Equation, rules: Rules<'_>) -> Result<Ending, Fail>
    requires { IsUsable (equation_of both.now) }
{
    let rules = rules_in_words(alloc, rules)?;
    let end = ended_by(alloc, both, &rules);
    drop(rules);
    end
}

/// Where the rules lead a term, all of them in words.
fn ended(alloc: Global, letters: &str, rules: Rules<'_>) -> Result<Ending, Fail> {
    let both = equation(alloc, letters, "")?;
    let end = ended_in_words(alloc, &both, rules);
    drop(both);
    end
}

/// Whether a run ended in a normal form of one box with two wires.
fn is_one_box(end: &Ending) -> bool {
    match end {
        Ending::NormalForm(form) => form.edge_count() == 1 && form.wire_count() == 2,
        _ => false,
    }
}

#[test]
fn a_run_ends_in_a_normal_form(rt: HostRuntime) -> Result<(), Fail> {
    let end = ended(rt.alloc(), "e f e", &[["e", ""]])?;
    assert!(rt; is_one_box(&end));
    Ok(())
}
