// Chunks: the tokens of a text, cut at its statements.
ghost use Rattle.std.specs.Prelude.{◌≡◌, ℕ, ◌+◌, ◌^◌, ◌<◌, ◌≤◌, length, List, IfOk, IsTrue, All};
ghost use Rattle.chyp_lex.specs.declared.token.Token.{Token};
ghost use Rattle.chyp_syntax.specs.Chunk.{AreChunks, HasOneListOfChunks, is_statement_keyword};

use chyp_base::NoMemory;
use chyp_lex::{Token, TokenKind};
use std::alloc::Global;

/// The tokens of one statement, or those before the first statement.
#[derive(Clone, Copy, Debug, PartialEq, Eq)]
pub struct Chunk {
    /// The number of its first token.
    pub first: u32,
    /// How many tokens it has, one at least.
    pub count: u32,
}

/// Cuts the tokens of a text in front of each statement keyword.
///
/// The chunks tile the tokens in order.
///
/// # Errors
///
/// `NoMemory` where the chunks can't be kept.
pub fn chunks(alloc: Global, tokens: &[Token]) -> Result<Vec<Chunk>, NoMemory>
    requires { length tokens.now < 2 ^ 32 }
    ensures chunks { IfOk result (λ chunks. AreChunks tokens.now chunks.items) }
    ensures some { IfOk result (λ chunks. All (λ chunk. 0 < chunk.count) chunks.items) }
    ensures within { IfOk result (λ chunks.
        All (λ chunk. chunk.first + chunk.count ≤ length tokens.now) chunks.items) }
{
    let mut chunks: Vec<Chunk> = Vec::new(alloc);
    for (at, token) in tokens.iter().enumerate() {
        if chunks.is_empty() || is_statement_keyword(token.kind) {
            chunks.push(Chunk {
                first: at as u32,
                count: 1,
            })?;
        } else if let Some(open) = chunks.last_mut() {
            open.count += 1;
        }
    }
    Ok(chunks)
}

fn is_statement_keyword(kind: TokenKind) -> bool
    ensures { result ≡ is_statement_keyword kind }
{
    matches!(
        kind,
        TokenKind::WordGen
            | TokenKind::WordLet
            | TokenKind::WordRule
            | TokenKind::WordRewrite
            | TokenKind::WordImport
            | TokenKind::WordShow
            | TokenKind::WordType
    )
}

/// Each list of tokens has exactly one list of chunks.
pub fn each_text_has_one_list_of_chunks()
    ensures { (tokens : List Token) → HasOneListOfChunks tokens }
{}
