// The tokens of a whole text.
ghost use Rattle.std.specs.Prelude.{◌≡◌, ◌+◌, ◌≤◌, [], ◌++◌, length, IfOk, All};
ghost use Rattle.chyp_lex.specs.Tokens.{AreSpans, AreTokens};

use crate::Token;
use crate::lexeme::next_lexeme;
use chyp_base::{MAX_TEXT_LEN, NoMemory};
use std::alloc::Global;

/// The tokens of a text, which is `first` followed by `second`. `second` has to be empty.
///
/// Tokens, blanks and comments are cut by maximal munch, as in the Definition of Standard ML and in
/// most languages. Characters of names are those of Unicode Standard Annex 31, `XID_Start` or `_`
/// and then `XID_Continue`, without normalization.
///
/// # Errors
///
/// `NoMemory` where there is no memory for the tokens.
pub fn lex(alloc: Global, first: &[u8], second: &[u8]) -> Result<Vec<Token>, NoMemory>
    requires length { length first.now + length second.now ≤ MAX_TEXT_LEN }
    requires whole { second.now ≡ [] }
    ensures tokens { IfOk result (λ tokens. AreTokens (first.now ++ second.now) tokens.items) }

    // In order inside the text, and none empty.
    ensures spans { IfOk result (λ tokens. AreSpans (length (first.now ++ second.now)) tokens.items) }
    ensures inside { let size = length (first.now ++ second.now) in
        IfOk result (λ tokens. All (λ token. token.start + token.len ≤ size) tokens.items) }
{
    let _ = second;
    let mut tokens = Vec::new(alloc);
    let mut at = 0;
    while at < first.len() {
        let lexeme = next_lexeme(&first[at..]);
        if let Some(kind) = lexeme.kind {
            tokens.push(Token {
                kind,
                start: at as u32,
                len: lexeme.len as u32,
                value: lexeme.value,
            })?;
        }
        at += lexeme.len;
    }
    Ok(tokens)
}
