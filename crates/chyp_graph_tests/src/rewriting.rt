// The n-th rewrites of terms.
ghost use Rattle.chyp_term.specs.Equation.{equation_of};
ghost use Rattle.chyp_simp.specs.Laws.{IsUsable};

use crate::diagrams::{are, beside, doubled, told_term, typed};
use crate::judging::rule;
use chyp_nth::{Nth, nth_rewrite};
use chyp_term::Equation;
use std::alloc::Global;
use std::test::Fail;

/// The n-th rewrite of the term of these words.
fn nth_of(alloc: Global, from: &str, rule: &Equation, n: u64) -> Result<Nth, Fail>
    requires { IsUsable (equation_of rule.now) }
{
    let from = typed(alloc, from)?;
    let nth = nth_rewrite(alloc, &from, rule, n);
    // As a call, it takes one step of the proof.
    drop(from);
    Ok(nth?)
}

/// The n-th rewrite, in words, of the term of these words by the rule of those.
fn nth(alloc: Global, from: &str, sides: (&str, &str), n: u64) -> Result<String, Fail> {
    let rule = rule(alloc, sides.0, sides.1)?;
    let nth = nth_of(alloc, from, &rule, n);
    drop(rule);
    in_words(alloc, nth?)
}

/// What the rewrite is, in words. It lets it go.
fn in_words(alloc: Global, nth: Nth) -> Result<String, Fail> {
    told(alloc, &nth)
}

/// What the rewrite is, in words.
fn told(alloc: Global, nth: &Nth) -> Result<String, Fail> {
    match nth {
        Nth::Rewritten(term) => told_term(alloc, term),
        Nth::NoSuch { count } => Ok(format!(in alloc; "one of {count}")?),
        Nth::TooWide { placements } => Ok(format!(in alloc; "{placements} placements")?),
        Nth::TooBig => Ok(format!(in alloc; "too big")?),
    }
}

const SEVENTEEN: &str = "s s * s * s * s * s * s * s * s * s * s * s * s * s * s * s * s *";

#[test]
fn terms_are_rewritten_at_each_occurrence(rt: HostRuntime) -> Result<(), Fail> {
    let alloc = rt.alloc();
    for (from, left, right, n, wanted) in [
        ("f", "id", "u id * m ;", 0, "((u * [0]) ; (m ; f))"),
        ("f", "id", "u id * m ;", 1, "((f * u) ; ([1, 0] ; m))"),
        ("f", "id", "u id * m ;", 2, "one of 2"),
        (SEVENTEEN, "s s * s * s *", "s", 0, "83521 placements"),
    ] {
        assert!(rt;
            are(nth(alloc, from, (left, right), n)?, wanted),
            "{from} {n}"
        );
    }
    Ok(())
}

#[test]
fn a_rewrite_that_passes_a_limit_is_not_made(rt: HostRuntime) -> Result<(), Fail> {
    let alloc = rt.alloc();
    // Each box of the chain is read back beside 1,024 wires, which together are too big.
    let chain = doubled(alloc, "f", 7, ";")?;
    let words = beside(alloc, chain, doubled(alloc, "id", 10, "*")?)?;
    let nth = nth(alloc, &words, ("f", "g"), 0);
    drop(words);
    assert!(rt; are(nth?, "too big"));
    Ok(())
}
