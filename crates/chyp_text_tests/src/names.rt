// Names of the language, which are told by their tokens.
ghost use Rattle.std.specs.Prelude.{◌≡◌, IfSome, IsTrue, OnOk, option_copied};
ghost use Rattle.chyp_lex.specs.Names.{IsNameText, is_name};

use crate::statements::tokens_of;
use chyp_lex::{Token, TokenKind, each_name_is_text};
use std::alloc::Global;
use std::test::Fail;

/// Whether a token is a name of so many bytes, at the front of its text.
fn is_whole(token: &Token, size: usize) -> bool
    ensures start { IsTrue result → token.now.start ≡ 0 }
    ensures len { IsTrue result → token.now.len ≡ size }
    ensures name { IsTrue result → IsTrue (is_name token.now.kind) }
{
    let is_name = matches!(token.kind, TokenKind::Ident | TokenKind::Dotted);
    is_name && token.start == 0 && token.len as usize == size
}

/// Fails unless the text is a name.
pub(crate) fn check_name(alloc: Global, name: &str) -> Result<(), Fail>
    ensures { OnOk result (IsNameText name.now) }
{
    let text = name.as_bytes();
    if text.len() > 1000 {
        return Err(Fail::new("a long name"));
    }
    each_name_is_text();
    let tokens = tokens_of(alloc, text)?;
    let Some(token) = tokens.first() else {
        return Err(Fail::new("no token"));
    };
    if is_whole(token, text.len()) {
        Ok(())
    } else {
        Err(Fail::new("no name"))
    }
}

/// Fails unless the prefix is a name, where there is one.
pub(crate) fn check_prefix(alloc: Global, prefix: Option<&str>) -> Result<(), Fail>
    ensures { OnOk result (IfSome (option_copied prefix.entry) IsNameText) }
{
    match prefix {
        Some(prefix) => check_name(alloc, prefix),
        None => Ok(()),
    }
}
