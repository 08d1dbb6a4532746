// Reserved words.
ghost use Rattle.std.specs.Prelude.{◌≡◌};
ghost use Rattle.chyp_lex.specs.Lexemes.{kind_of_word};

use crate::TokenKind;

pub(crate) fn kind_of_word(name: &[u8]) -> TokenKind
    ensures { result ≡ kind_of_word name.now }
{
    match name {
        b"gen" => TokenKind::WordGen,
        b"let" => TokenKind::WordLet,
        b"rule" => TokenKind::WordRule,
        b"rewrite" => TokenKind::WordRewrite,
        b"import" => TokenKind::WordImport,
        b"show" => TokenKind::WordShow,
        b"type" => TokenKind::WordType,
        b"id" => TokenKind::WordId,
        b"id0" => TokenKind::WordId0,
        b"sw" => TokenKind::WordSw,
        b"by" => TokenKind::WordBy,
        b"as" => TokenKind::WordAs,
        b"simp" => TokenKind::WordSimp,
        b"with" => TokenKind::WordWith,
        _ => TokenKind::Ident,
    }
}
