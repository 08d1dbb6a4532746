// Single tokens at a place.
ghost use Rattle.std.specs.Prelude.{◌≡◌, ℕ, ◌+◌, ◌^◌, ◌<◌, ◌≤◌, ◌↔◌, length, IfOk, OnOk, IsTrue, Err, []};
ghost use Rattle.chyp_syntax.specs.Expected.{next, token, name};
ghost use Rattle.chyp_syntax.specs.Beginning.{tokens_from, BeginsWithKind, BeginsWithName, BeginsWithNumber};
ghost use Rattle.chyp_syntax.specs.Reads.{Stops};

use crate::ParseError;
use chyp_lex::{Token, TokenKind};

/// Whether a token of the kind stands at the place.
pub(crate) fn is_kind(tokens: &[Token], at: usize, kind: TokenKind) -> bool
    ensures { IsTrue result ↔ BeginsWithKind kind (tokens_from tokens.now at) }
{
    match tokens.get(at) {
        Some(token) => token.kind == kind,
        None => false,
    }
}

/// Refuses where no token of the kind stands at the place.
pub(crate) fn expect(tokens: &[Token], at: usize, kind: TokenKind) -> Result<(), ParseError>
    requires few { length tokens.now < 2 ^ 32 }
    requires within { at ≤ length tokens.now }
    ensures there { OnOk result (BeginsWithKind kind (tokens_from tokens.now at)) }
    ensures within { OnOk result (at < length tokens.now) }
    ensures stops { (k : ℕ) → result ≡ Err (ParseError.Syntax k) → Stops (next (token kind)) tokens.now at k }
{
    if is_kind(tokens, at, kind) {
        Ok(())
    } else {
        Err(ParseError::Syntax { token: at as u32 })
    }
}

/// Refuses where no name stands at the place.
pub(crate) fn expect_name(tokens: &[Token], at: usize) -> Result<(), ParseError>
    requires few { length tokens.now < 2 ^ 32 }
    requires within { at ≤ length tokens.now }
    ensures there { OnOk result (BeginsWithName (tokens_from tokens.now at)) }
    ensures within { OnOk result (at < length tokens.now) }
    ensures stops { (k : ℕ) → result ≡ Err (ParseError.Syntax k) → Stops (next name) tokens.now at k }
{
    if is_kind(tokens, at, TokenKind::Ident) || is_kind(tokens, at, TokenKind::Dotted) {
        Ok(())
    } else {
        Err(ParseError::Syntax { token: at as u32 })
    }
}

/// The value of the number at the place.
pub(crate) fn number(tokens: &[Token], at: usize) -> Result<u64, ParseError>
    requires few { length tokens.now < 2 ^ 32 }
    requires within { at ≤ length tokens.now }
    ensures there { IfOk result (λ value. BeginsWithNumber value (tokens_from tokens.now at)) }
    ensures within { OnOk result (at < length tokens.now) }
    ensures stops { (k : ℕ) → result ≡ Err (ParseError.Syntax k) → Stops (next (token TokenKind.Number)) tokens.now at k }
{
    expect(tokens, at, TokenKind::Number)?;
    Ok(tokens[at].value)
}

/// Refuses where a token stands at the place.
pub(crate) fn expect_end(tokens: &[Token], at: usize) -> Result<(), ParseError>
    requires few { length tokens.now < 2 ^ 32 }
    requires within { at ≤ length tokens.now }
    ensures there { OnOk result (tokens_from tokens.now at ≡ []) }
    ensures stops { (k : ℕ) → result ≡ Err (ParseError.Syntax k) → (k ≡ at) × (at < length tokens.now) }
{
    if at < tokens.len() {
        Err(ParseError::Syntax { token: at as u32 })
    } else {
        Ok(())
    }
}
