// From the tokens of a chunk to its tree.
ghost use Rattle.std.specs.Prelude.{◌≡◌, ℕ, ◌^◌, ◌<◌, length, List, IfOk, Err};
ghost use Rattle.chyp_lex.specs.declared.token.Token.{Token};
ghost use Rattle.chyp_syntax.specs.Expected.{statement};
ghost use Rattle.chyp_syntax.specs.Failing.{FailsAt};
ghost use Rattle.chyp_syntax.specs.Beginning.{tokens_from, BeginsWithKind};
ghost use Rattle.chyp_syntax.specs.Reads.{StopsAt};
ghost use Rattle.chyp_syntax.specs.Sentence.{IsStatement, IsSentence};
ghost use Rattle.chyp_syntax.specs.Statement.{statement_of};
ghost use Rattle.chyp_syntax.specs.Words.{words_of};

use crate::steps::steps;
use crate::terms::{MOST_NESTED, term};
use crate::tokens::{expect, expect_end, expect_name, is_kind, number};
use crate::{Ast, ParseError};
use chyp_lex::{Token, TokenKind};
use std::alloc::Global;

/// The tree of a chunk, where its tokens are a sentence.
///
/// # Errors
///
/// `Syntax` exactly where they are none. Its `token` is the first with which the tokens up to it begin
/// no sentence, whatever follows; where there is no such token, it is their number. `NoMemory` where
/// the tree can't be kept.
pub fn parse(alloc: Global, tokens: &[Token]) -> Result<Ast, ParseError>
    requires { length tokens.now < 2 ^ 32 }
    ensures tree { IfOk result (λ ast. (text : List ℕ) → IsSentence (words_of text tokens.now) (statement_of ast)) }
    ensures syntax { (k : ℕ) → result ≡ Err (ParseError.Syntax k) → (text : List ℕ)
        → FailsAt (words_of text tokens.now) k }
{
    statement(alloc, tokens)
}

// The tree of a chunk, by its first word.
fn statement(alloc: Global, tokens: &[Token]) -> Result<Ast, ParseError>
    requires { length tokens.now < 2 ^ 32 }
    ensures tree { IfOk result (λ ast. IsStatement (tokens_from tokens.now 0) (statement_of ast)) }
    ensures stops { (k : ℕ) → result ≡ Err (ParseError.Syntax k) → StopsAt statement tokens.now 0 k }
{
    let Some(word) = tokens.first() else {
        return Err(ParseError::Syntax { token: 0 });
    };
    match word.kind {
        TokenKind::WordGen => gen_decl(tokens),
        TokenKind::WordLet => let_decl(alloc, tokens),
        TokenKind::WordRule => rule_decl(alloc, tokens),
        TokenKind::WordRewrite => rewrite_decl(alloc, tokens),
        TokenKind::WordImport => import_decl(tokens),
        TokenKind::WordShow => show_decl(tokens),
        _ => Err(ParseError::Syntax { token: 0 }),
    }
}

fn gen_decl(tokens: &[Token]) -> Result<Ast, ParseError>
    requires few { length tokens.now < 2 ^ 32 }
    requires begins { BeginsWithKind TokenKind.WordGen (tokens_from tokens.now 0) }
    requires some { 0 < length tokens.now }
    ensures tree { IfOk result (λ ast. IsStatement (tokens_from tokens.now 0) (statement_of ast)) }
    ensures stops { (k : ℕ) → result ≡ Err (ParseError.Syntax k) → StopsAt statement tokens.now 0 k }
{
    expect(tokens, 1, TokenKind::Ident)?;
    expect(tokens, 2, TokenKind::Colon)?;
    let dom = number(tokens, 3)?;
    expect(tokens, 4, TokenKind::Arrow)?;
    let cod = number(tokens, 5)?;
    expect_end(tokens, 6)?;
    let name = 1;
    Ok(Ast::GenDecl { name, dom, cod })
}

fn let_decl(alloc: Global, tokens: &[Token]) -> Result<Ast, ParseError>
    requires few { length tokens.now < 2 ^ 32 }
    requires begins { BeginsWithKind TokenKind.WordLet (tokens_from tokens.now 0) }
    requires some { 0 < length tokens.now }
    ensures tree { IfOk result (λ ast. IsStatement (tokens_from tokens.now 0) (statement_of ast)) }
    ensures stops { (k : ℕ) → result ≡ Err (ParseError.Syntax k) → StopsAt statement tokens.now 0 k }
{
    expect(tokens, 1, TokenKind::Ident)?;
    expect(tokens, 2, TokenKind::Equals)?;
    let (term, end) = term(alloc, tokens, 3, MOST_NESTED)?;
    expect_end(tokens, end)?;
    let name = 1;
    Ok(Ast::LetDecl { name, term })
}

fn rule_decl(alloc: Global, tokens: &[Token]) -> Result<Ast, ParseError>
    requires few { length tokens.now < 2 ^ 32 }
    requires begins { BeginsWithKind TokenKind.WordRule (tokens_from tokens.now 0) }
    requires some { 0 < length tokens.now }
    ensures tree { IfOk result (λ ast. IsStatement (tokens_from tokens.now 0) (statement_of ast)) }
    ensures stops { (k : ℕ) → result ≡ Err (ParseError.Syntax k) → StopsAt statement tokens.now 0 k }
{
    expect(tokens, 1, TokenKind::Ident)?;
    expect(tokens, 2, TokenKind::Colon)?;
    let (left, middle) = term(alloc, tokens, 3, MOST_NESTED)?;
    expect(tokens, middle, TokenKind::Equals)?;
    let (right, end) = term(alloc, tokens, middle + 1, MOST_NESTED)?;
    expect_end(tokens, end)?;
    let name = 1;
    let equals = middle as u32;
    Ok(Ast::RuleDecl {
        name,
        left,
        equals,
        right,
    })
}

fn rewrite_decl(alloc: Global, tokens: &[Token]) -> Result<Ast, ParseError>
    requires few { length tokens.now < 2 ^ 32 }
    requires begins { BeginsWithKind TokenKind.WordRewrite (tokens_from tokens.now 0) }
    requires some { 0 < length tokens.now }
    ensures tree { IfOk result (λ ast. IsStatement (tokens_from tokens.now 0) (statement_of ast)) }
    ensures stops { (k : ℕ) → result ≡ Err (ParseError.Syntax k) → StopsAt statement tokens.now 0 k }
{
    expect(tokens, 1, TokenKind::Ident)?;
    expect(tokens, 2, TokenKind::Colon)?;
    let (first, end) = term(alloc, tokens, 3, MOST_NESTED)?;
    let steps = steps(alloc, tokens, end)?;
    let name = 1;
    Ok(Ast::RewriteDecl { name, first, steps })
}

fn import_decl(tokens: &[Token]) -> Result<Ast, ParseError>
    requires few { length tokens.now < 2 ^ 32 }
    requires begins { BeginsWithKind TokenKind.WordImport (tokens_from tokens.now 0) }
    requires some { 0 < length tokens.now }
    ensures tree { IfOk result (λ ast. IsStatement (tokens_from tokens.now 0) (statement_of ast)) }
    ensures stops { (k : ℕ) → result ≡ Err (ParseError.Syntax k) → StopsAt statement tokens.now 0 k }
{
    expect(tokens, 1, TokenKind::Ident)?;
    let module = 1;
    if !is_kind(tokens, 2, TokenKind::WordAs) {
        expect_end(tokens, 2)?;
        let prefix = None;
        return Ok(Ast::ImportDecl { module, prefix });
    }
    expect(tokens, 3, TokenKind::Ident)?;
    expect_end(tokens, 4)?;
    let prefix = Some(3);
    Ok(Ast::ImportDecl { module, prefix })
}

fn show_decl(tokens: &[Token]) -> Result<Ast, ParseError>
    requires few { length tokens.now < 2 ^ 32 }
    requires begins { BeginsWithKind TokenKind.WordShow (tokens_from tokens.now 0) }
    requires some { 0 < length tokens.now }
    ensures tree { IfOk result (λ ast. IsStatement (tokens_from tokens.now 0) (statement_of ast)) }
    ensures stops { (k : ℕ) → result ≡ Err (ParseError.Syntax k) → StopsAt statement tokens.now 0 k }
{
    expect_name(tokens, 1)?;
    expect_end(tokens, 2)?;
    let name = 1;
    Ok(Ast::ShowDecl { name })
}
