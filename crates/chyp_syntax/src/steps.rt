// The steps of a rewrite at a place, and what they rest on.
ghost use Rattle.std.specs.Prelude.{◌≡◌, ℕ, ◌+◌, ◌^◌, ◌<◌, ◌≤◌, [], length, map, IfOk, Err};
ghost use Rattle.chyp_syntax.specs.Expected.{next, signed, reason, tail, reason_left, signed_left, nothing, steps, term_then};
ghost use Rattle.chyp_syntax.specs.Beginning.{tokens_from, BeginsWithKind};
ghost use Rattle.chyp_syntax.specs.Reads.{BeginsWith, Passes, Stops, StopsAt};
ghost use Rattle.chyp_syntax.specs.Sentence.{IsSigned, AreSigned, IsReason, IsStep, IsHole, AreSteps, most_nested};
ghost use Rattle.chyp_syntax.specs.Step.{step_of};

use crate::terms::{MOST_NESTED, term};
use crate::tokens::{expect, expect_end, expect_name, is_kind};
use crate::{ParseError, ReasonAst, SignedAst, SignedAsts, StepAst, StepAsts};
use chyp_lex::{Token, TokenKind};
use std::alloc::Global;

/// The steps from the place to the end of the chunk.
pub(crate) fn steps(alloc: Global, tokens: &[Token], start: usize) -> Result<StepAsts, ParseError>
    requires few { length tokens.now < 2 ^ 32 }
    requires within { start ≤ length tokens.now }
    ensures read { IfOk result (λ found. AreSteps (tokens_from tokens.now start) (map step_of found)) }
    ensures stops { (k : ℕ) → result ≡ Err (ParseError.Syntax k) → StopsAt steps tokens.now start k }
{
    let mut steps = StepAsts::new(alloc);
    let mut at = start;
    while is_kind(tokens, at, TokenKind::Equals) {
        if is_kind(tokens, at + 1, TokenKind::QuestionMark) {
            let hole = hole(alloc, tokens, at)?;
            steps.push(hole)?;
            return Ok(steps);
        }
        let (step, end) = step(alloc, tokens, at)?;
        steps.push(step)?;
        at = end;
    }
    expect_end(tokens, at)?;
    Ok(steps)
}

// The step that begins at the place, an `=` with a term behind it.
fn step(alloc: Global, tokens: &[Token], at: usize) -> Result<(StepAst, usize), ParseError>
    requires few { length tokens.now < 2 ^ 32 }
    requires begins { BeginsWithKind TokenKind.Equals (tokens_from tokens.now at) }
    requires within { at < length tokens.now }
    ensures read { IfOk result (λ found.
        BeginsWith IsStep (tokens_from tokens.now at) (tokens_from tokens.now found.1) (step_of found.0)) }
    ensures passes { IfOk result (λ found.
        Passes (λ behind. term_then most_nested (next (tail reason_left) behind)) tokens.now (at + 1) found.1) }
    ensures within { IfOk result (λ found. (at < found.1) × (found.1 ≤ length tokens.now)) }
    ensures stops { (k : ℕ) → result ≡ Err (ParseError.Syntax k) →
        Stops (λ behind. term_then most_nested (next (tail reason_left) behind)) tokens.now (at + 1) k }
{
    let equals = at as u32;
    let (term, by) = term(alloc, tokens, at + 1, MOST_NESTED)?;
    let (reason, end) = reason(alloc, tokens, by)?;
    let goal = Some(term);
    Ok((
        StepAst {
            equals,
            goal,
            reason,
        },
        end,
    ))
}

// The hole that begins at the place, to the end of the chunk.
fn hole(alloc: Global, tokens: &[Token], at: usize) -> Result<StepAst, ParseError>
    requires few { length tokens.now < 2 ^ 32 }
    requires begins { BeginsWithKind TokenKind.Equals (tokens_from tokens.now at) }
    requires marked { BeginsWithKind TokenKind.QuestionMark (tokens_from tokens.now (at + 1)) }
    requires within { at + 1 < length tokens.now }
    ensures read { IfOk result (λ found. IsHole (tokens_from tokens.now at) (step_of found)) }
    ensures stops { (k : ℕ) → result ≡ Err (ParseError.Syntax k) →
        StopsAt (next (tail reason_left) nothing) tokens.now (at + 2) k }
{
    let equals = at as u32;
    let (reason, end) = reason(alloc, tokens, at + 2)?;
    expect_end(tokens, end)?;
    let goal = None;
    Ok(StepAst {
        equals,
        goal,
        reason,
    })
}

// What a step rests on: the `by` at the place, or the laws alone where there is none.
fn reason(alloc: Global, tokens: &[Token], at: usize) -> Result<(ReasonAst, usize), ParseError>
    requires few { length tokens.now < 2 ^ 32 }
    requires within { at ≤ length tokens.now }
    ensures read { IfOk result (λ found.
        BeginsWith IsReason (tokens_from tokens.now at) (tokens_from tokens.now found.1) found.0) }
    ensures passes { IfOk result (λ found. Passes (next (tail reason_left)) tokens.now at found.1) }
    ensures within { IfOk result (λ found. (at ≤ found.1) × (found.1 ≤ length tokens.now)) }
    ensures stops { (k : ℕ) → result ≡ Err (ParseError.Syntax k) → Stops (next (tail reason_left)) tokens.now at k }
{
    if !is_kind(tokens, at, TokenKind::WordBy) {
        return Ok((ReasonAst::Plain, at));
    }
    if !is_kind(tokens, at + 1, TokenKind::WordSimp) {
        let (rule, end) = signed(tokens, at + 1)?;
        return Ok((ReasonAst::Rule(rule), end));
    }
    expect(tokens, at + 2, TokenKind::LeftParenthesis)?;
    let (rules, end) = signed_list(alloc, tokens, at + 3)?;
    expect(tokens, end, TokenKind::RightParenthesis)?;
    Ok((ReasonAst::Simp(rules), end + 1))
}

// The rules at the place, with `,` between them.
fn signed_list(
    alloc: Global,
    tokens: &[Token],
    start: usize,
) -> Result<(SignedAsts, usize), ParseError>
    requires few { length tokens.now < 2 ^ 32 }
    requires within { start ≤ length tokens.now }
    ensures read { IfOk result (λ found.
        BeginsWith AreSigned (tokens_from tokens.now start) (tokens_from tokens.now found.1) found.0) }
    ensures passes { IfOk result (λ found.
        Passes (λ behind. next signed (next (tail signed_left) behind)) tokens.now start found.1) }
    ensures within { IfOk result (λ found. (start < found.1) × (found.1 ≤ length tokens.now)) }
    ensures stops { (k : ℕ) → result ≡ Err (ParseError.Syntax k) →
        Stops (λ behind. next signed (next (tail signed_left) behind)) tokens.now start k }
{
    let mut rules = SignedAsts::new(alloc);
    let mut at = start;
    loop {
        let (rule, end) = signed(tokens, at)?;
        rules.push(rule)?;
        if !is_kind(tokens, end, TokenKind::Comma) {
            return Ok((rules, end));
        }
        at = end + 1;
    }
}

// The name at the place, with the `-` in front of it where there is one.
fn signed(tokens: &[Token], at: usize) -> Result<(SignedAst, usize), ParseError>
    requires few { length tokens.now < 2 ^ 32 }
    requires within { at ≤ length tokens.now }
    ensures read { IfOk result (λ found.
        BeginsWith IsSigned (tokens_from tokens.now at) (tokens_from tokens.now found.1) found.0) }
    ensures passes { IfOk result (λ found. Passes (next signed) tokens.now at found.1) }
    ensures within { IfOk result (λ found. (at < found.1) × (found.1 ≤ length tokens.now)) }
    ensures stops { (k : ℕ) → result ≡ Err (ParseError.Syntax k) → Stops (next signed) tokens.now at k }
{
    let minus = is_kind(tokens, at, TokenKind::Minus);
    let spot = if minus { at + 1 } else { at };
    expect_name(tokens, spot)?;
    let name = spot as u32;
    Ok((SignedAst { minus, name }, spot + 1))
}
