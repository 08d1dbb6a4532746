// What a statement, the tokens of one chunk, shows of itself without its tree.
ghost use Rattle.std.specs.Prelude.{◌≡◌, ◌≤◌, ◌+◌, ◌<◌, ◌&&◌, ℕ, length, option_copied, Some, is_some, slice_get, take, drop, codes};
ghost use Rattle.chyp_lex.specs.Names.{is_name};
ghost use Rattle.chyp_lex.specs.Tokens.{AreSpans, token_text};
ghost use Rattle.chyp_syntax.specs.Heading.{chunk_tokens, keyword_of, declares, is_identifier, declared_name, kind_text, shown_name, end_of, token_start};
ghost use Rattle.chyp_syntax.specs.Words.{bytes_at, words_of};

use crate::Chunk;
use chyp_lex::{Token, TokenKind};

/// The keyword that a statement begins with, None for every other token.
fn keyword(kind: TokenKind) -> Option<&'static str>
    ensures { option_copied result ≡ keyword_of kind }
{
    match kind {
        TokenKind::WordGen => Some("gen"),
        TokenKind::WordLet => Some("let"),
        TokenKind::WordRule => Some("rule"),
        TokenKind::WordRewrite => Some("rewrite"),
        TokenKind::WordImport => Some("import"),
        TokenKind::WordShow => Some("show"),
        TokenKind::WordType => Some("type"),
        _ => None,
    }
}

// Whether a statement of this keyword declares a name.
fn declares(kind: TokenKind) -> bool
    ensures { result ≡ declares kind }
{
    matches!(
        kind,
        TokenKind::WordGen | TokenKind::WordLet | TokenKind::WordRule | TokenKind::WordRewrite
    )
}

fn is_identifier(kind: TokenKind) -> bool
    ensures { result ≡ is_identifier kind }
{
    matches!(kind, TokenKind::Ident)
}

fn is_name(kind: TokenKind) -> bool
    ensures { result ≡ is_name kind }
{
    matches!(kind, TokenKind::Ident | TokenKind::Dotted)
}

/// The tokens of a chunk.
pub fn chunk_tokens(tokens: &[Token], chunk: Chunk) -> &[Token]
    requires { chunk.first + chunk.count ≤ length tokens.now }
    ensures { result.now ≡ chunk_tokens tokens.entry.now chunk }
{
    let first = chunk.first as usize;
    &tokens[first..first + chunk.count as usize]
}

// The bytes of a token.
fn token_text<'a>(text: &'a [u8], token: &Token) -> &'a [u8]
    requires { token.now.start + token.now.len ≤ length text.now }
    ensures { result.now ≡ token_text text.entry.now token.now }
{
    let start = token.start as usize;
    &text[start..start + token.len as usize]
}

/// The bytes of the token of this number, none where the statement has no such token.
pub fn text_at<'a>(text: &'a [u8], statement: &[Token], number: u32) -> &'a [u8]
    requires { AreSpans (length text.now) statement.now }
    ensures { result.now ≡ bytes_at (words_of text.entry.now statement.now) number }
{
    match statement.get(number as usize) {
        Some(token) => token_text(text, token),
        None => &[],
    }
}

/// The name that a statement declares, whatever becomes of it.
pub fn declared_name<'a>(text: &'a [u8], statement: &[Token]) -> Option<&'a [u8]>
    requires { AreSpans (length text.now) statement.now }
    ensures { option_copied result ≡ declared_name (words_of text.entry.now statement.now) }
{
    let keyword = statement.first()?;
    let name = statement.get(1)?;
    if declares(keyword.kind) && is_identifier(name.kind) {
        Some(token_text(text, name))
    } else {
        None
    }
}

/// The keyword of a statement, or `stray`.
pub fn kind_text(statement: &[Token]) -> &'static str
    ensures { result.now ≡ kind_text statement.now }
{
    match statement.first() {
        Some(token) => keyword(token.kind).unwrap_or("stray"),
        None => "stray",
    }
}

/// The name behind the keyword of a statement, None where there is no keyword or no name behind it.
pub fn shown_name<'a>(text: &'a [u8], statement: &[Token]) -> Option<&'a [u8]>
    requires { AreSpans (length text.now) statement.now }
    ensures { option_copied result ≡ shown_name text.entry.now statement.now }
{
    let first = statement.first()?;
    let second = statement.get(1)?;
    if keyword(first.kind).is_some() && is_name(second.kind) {
        Some(token_text(text, second))
    } else {
        None
    }
}

/// Where the token of this number begins, or where the last token ends if there is none of it.
pub fn token_start(statement: &[Token], number: u32) -> usize
    ensures { result ≡ token_start statement.now number }
{
    if let Some(token) = statement.get(number as usize) {
        return token.start as usize;
    }
    match statement.last() {
        Some(token) => token.start as usize + token.len as usize,
        None => 0,
    }
}
