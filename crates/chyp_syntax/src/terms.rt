// Terms at a place.
ghost use Rattle.std.specs.Prelude.{◌≡◌, ℕ, ◌+◌, ◌^◌, ◌<◌, ◌≤◌, [], ◌∷◌, ◌++◌, length, map, IfOk, Err};
ghost use Rattle.chyp_syntax.specs.Expected.{next, token, atom, tail, places_left, numbers_left, atoms_left, term_then};
ghost use Rattle.chyp_syntax.specs.Beginning.{tokens_from, BeginsWithKind};
ghost use Rattle.chyp_syntax.specs.Reads.{BeginsWith, Passes, Stops};
ghost use Rattle.chyp_syntax.specs.Sentence.{AreNumbers, IsSwap, IsAtom, IsPar, IsTerm};
ghost use Rattle.chyp_syntax.specs.Term.{tree_of, tensor_of, chain_of};

use crate::tokens::{expect, is_kind, number};
use crate::{Numbers, ParseError, Spots, TermAst, TermAsts};
use chyp_lex::{Token, TokenKind};
use std::alloc::{AllocError, Global};

/// The parentheses of a sentence's terms nest at most this deep.
pub(crate) const MOST_NESTED: u32 = 256;

/// The term at the place, as far as it goes, and the place behind it.
///
/// Its parentheses nest at most `depth` deep.
#[cycle(terms)]
pub(crate) fn term(
    alloc: Global,
    tokens: &[Token],
    start: usize,
    depth: u32,
) -> Result<(TermAst, usize), ParseError>
    requires few { length tokens.now < 2 ^ 32 }
    requires within { start ≤ length tokens.now }
    ensures read { IfOk result (λ found.
        BeginsWith (IsTerm depth) (tokens_from tokens.now start) (tokens_from tokens.now found.1) (tree_of found.0)) }
    ensures passes { IfOk result (λ found. Passes (term_then depth) tokens.now start found.1) }
    ensures within { IfOk result (λ found. (start < found.1) × (found.1 ≤ length tokens.now)) }
    ensures stops { (k : ℕ) → result ≡ Err (ParseError.Syntax k) → Stops (term_then depth) tokens.now start k }
{
    let mut parts = TermAsts::new(alloc);
    let mut semis = Spots::new(alloc);
    let mut at = start;
    loop {
        let (part, end) = par(alloc, tokens, at, depth)?;
        if !is_kind(tokens, end, TokenKind::Semicolon) {
            return Ok((chain(parts, semis, part)?, end));
        }
        parts.push(part)?;
        semis.push(end as u32)?;
        at = end + 1;
    }
}

// The tensor of atoms at the place, as far as it goes.
#[cycle(terms)]
fn par(
    alloc: Global,
    tokens: &[Token],
    start: usize,
    depth: u32,
) -> Result<(TermAst, usize), ParseError>
    requires few { length tokens.now < 2 ^ 32 }
    requires within { start ≤ length tokens.now }
    ensures read { IfOk result (λ found.
        BeginsWith (IsPar depth) (tokens_from tokens.now start) (tokens_from tokens.now found.1) (tree_of found.0)) }
    ensures passes { IfOk result (λ found.
        Passes (λ behind. next (atom depth) (next (tail (atoms_left depth)) behind)) tokens.now start found.1) }
    ensures within { IfOk result (λ found. (start < found.1) × (found.1 ≤ length tokens.now)) }
    ensures stops { (k : ℕ) → result ≡ Err (ParseError.Syntax k) →
        Stops (λ behind. next (atom depth) (next (tail (atoms_left depth)) behind)) tokens.now start k }
{
    let mut parts = TermAsts::new(alloc);
    let mut at = start;
    loop {
        let (part, end) = atom(alloc, tokens, at, depth)?;
        if !is_kind(tokens, end, TokenKind::Star) {
            return Ok((tensor(parts, part)?, end));
        }
        parts.push(part)?;
        at = end + 1;
    }
}

// The atom at the place.
#[cycle(terms)]
fn atom(
    alloc: Global,
    tokens: &[Token],
    at: usize,
    depth: u32,
) -> Result<(TermAst, usize), ParseError>
    requires few { length tokens.now < 2 ^ 32 }
    requires within { at ≤ length tokens.now }
    ensures read { IfOk result (λ found.
        BeginsWith (IsAtom depth) (tokens_from tokens.now at) (tokens_from tokens.now found.1) (tree_of found.0)) }
    ensures passes { IfOk result (λ found. Passes (next (atom depth)) tokens.now at found.1) }
    ensures within { IfOk result (λ found. (at < found.1) × (found.1 ≤ length tokens.now)) }
    ensures stops { (k : ℕ) → result ≡ Err (ParseError.Syntax k) → Stops (next (atom depth)) tokens.now at k }
{
    let refused = ParseError::Syntax { token: at as u32 };
    let Some(token) = tokens.get(at) else {
        return Err(refused);
    };
    match token.kind {
        TokenKind::Ident | TokenKind::Dotted => Ok((TermAst::Named(at as u32), at + 1)),
        TokenKind::WordId => Ok((TermAst::Wire, at + 1)),
        TokenKind::WordId0 => Ok((TermAst::Empty, at + 1)),
        TokenKind::WordSw => swap(alloc, tokens, at),
        TokenKind::LeftParenthesis => inner(alloc, tokens, at, depth),
        _ => Err(refused),
    }
}

// The term in the parentheses that begin at the place.
#[cycle(terms)]
fn inner(
    alloc: Global,
    tokens: &[Token],
    at: usize,
    depth: u32,
) -> Result<(TermAst, usize), ParseError>
    requires few { length tokens.now < 2 ^ 32 }
    requires begins { BeginsWithKind TokenKind.LeftParenthesis (tokens_from tokens.now at) }
    requires within { at < length tokens.now }
    ensures read { IfOk result (λ found.
        BeginsWith (IsAtom depth) (tokens_from tokens.now at) (tokens_from tokens.now found.1) (tree_of found.0)) }
    ensures passes { IfOk result (λ found. Passes (next (atom depth)) tokens.now at found.1) }
    ensures within { IfOk result (λ found. (at < found.1) × (found.1 ≤ length tokens.now)) }
    ensures stops { (k : ℕ) → result ≡ Err (ParseError.Syntax k) → Stops (next (atom depth)) tokens.now at k }
{
    if depth == 0 {
        return Err(ParseError::Syntax { token: at as u32 });
    }
    let (found, end) = term(alloc, tokens, at + 1, depth - 1)?;
    expect(tokens, end, TokenKind::RightParenthesis)?;
    Ok((found, end + 1))
}

// The swap that begins at the place, with its places where they are written.
fn swap(alloc: Global, tokens: &[Token], at: usize) -> Result<(TermAst, usize), ParseError>
    requires few { length tokens.now < 2 ^ 32 }
    requires begins { BeginsWithKind TokenKind.WordSw (tokens_from tokens.now at) }
    requires within { at < length tokens.now }
    ensures read { IfOk result (λ found.
        BeginsWith IsSwap (tokens_from tokens.now at) (tokens_from tokens.now found.1) (tree_of found.0)) }
    ensures passes { IfOk result (λ found. Passes (next (tail places_left)) tokens.now (at + 1) found.1) }
    ensures within { IfOk result (λ found. (at < found.1) × (found.1 ≤ length tokens.now)) }
    ensures stops { (k : ℕ) → result ≡ Err (ParseError.Syntax k) → Stops (next (tail places_left)) tokens.now (at + 1) k }
{
    let token = at as u32;
    if !is_kind(tokens, at + 1, TokenKind::LeftBracket) {
        let places = None;
        return Ok((TermAst::Swap { token, places }, at + 1));
    }
    let (numbers, end) = numbers(alloc, tokens, at + 2)?;
    expect(tokens, end, TokenKind::RightBracket)?;
    let places = Some(numbers);
    Ok((TermAst::Swap { token, places }, end + 1))
}

// The numbers at the place, with `,` between them.
fn numbers(alloc: Global, tokens: &[Token], start: usize) -> Result<(Numbers, usize), ParseError>
    requires few { length tokens.now < 2 ^ 32 }
    requires within { start ≤ length tokens.now }
    ensures read { IfOk result (λ found.
        BeginsWith AreNumbers (tokens_from tokens.now start) (tokens_from tokens.now found.1) found.0) }
    ensures passes { IfOk result (λ found.
        Passes (λ behind. next (token TokenKind.Number) (next (tail numbers_left) behind)) tokens.now start found.1) }
    ensures within { IfOk result (λ found. (start < found.1) × (found.1 ≤ length tokens.now)) }
    ensures stops { (k : ℕ) → result ≡ Err (ParseError.Syntax k) →
        Stops (λ behind. next (token TokenKind.Number) (next (tail numbers_left) behind)) tokens.now start k }
{
    let mut values = Numbers::new(alloc);
    let mut at = start;
    loop {
        let value = number(tokens, at)?;
        values.push(value)?;
        if !is_kind(tokens, at + 1, TokenKind::Comma) {
            return Ok((values, at + 1));
        }
        at += 2;
    }
}

// The tensor of these parts and the last one, which is its own tensor where it is alone.
fn tensor(mut parts: TermAsts, last: TermAst) -> Result<TermAst, AllocError>
    ensures { IfOk result (λ found. tree_of found ≡ tensor_of (map tree_of parts ++ tree_of last ∷ [])) }
{
    if parts.is_empty() {
        return Ok(last);
    }
    parts.push(last)?;
    Ok(TermAst::Beside(parts))
}

// The chain of these parts and the last one, which is its own chain where it is alone.
fn chain(mut parts: TermAsts, semis: Spots, last: TermAst) -> Result<TermAst, AllocError>
    ensures { IfOk result (λ found. tree_of found ≡ chain_of (map tree_of parts ++ tree_of last ∷ []) semis) }
{
    if parts.is_empty() {
        return Ok(last);
    }
    parts.push(last)?;
    Ok(TermAst::Chain { parts, semis })
}
