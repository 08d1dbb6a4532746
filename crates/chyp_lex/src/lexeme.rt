// What comes first in a text.
ghost use Rattle.std.specs.Prelude.{◌≡◌, ◌<◌, ◌≤◌, length, take, not, IfSome, slice_index};
ghost use Rattle.std.specs.List.{prefix_len};
ghost use Rattle.chyp_lex.specs.Longest.{next_of, symbol_of};
ghost use Rattle.chyp_lex.specs.Lexemes.{is_blank, is_line_feed};
ghost use Rattle.chyp_lex.specs.Tokens.{value_of};

use crate::TokenKind;
use crate::name::name_or_bad;
use crate::number::number;
use memchr::memchr;

// How many bytes it takes, the kind of its token if it is one, and a number's value.
#[derive(Clone, Copy)]
pub(crate) struct Lexeme {
    pub(crate) len: usize,
    pub(crate) kind: Option<TokenKind>,
    pub(crate) value: u64,
}

impl Lexeme {
    // Blanks or a comment.
    fn passed_over(len: usize) -> Lexeme
        ensures { result ≡ record { len = len; kind = None; value = 0 } }
    {
        Lexeme {
            len,
            kind: None,
            value: 0,
        }
    }

    // A token that is no number.
    pub(crate) fn token(len: usize, kind: TokenKind) -> Lexeme
        ensures { result ≡ record { len = len; kind = Some kind; value = 0 } }
    {
        Lexeme {
            len,
            kind: Some(kind),
            value: 0,
        }
    }
}

pub(crate) fn next_lexeme(text: &[u8]) -> Lexeme
    requires { 0 < length text.now }
    ensures next { next_of text.now ≡ (result.len, result.kind) }
    ensures value { IfSome result.kind (λ kind. result.value ≡ value_of kind (take result.len text.now)) }
{
    let first = text[0];
    if is_blank(first) {
        Lexeme::passed_over(blanks_len(text))
    } else if first == b'#' {
        Lexeme::passed_over(comment_len(text))
    } else if first.is_ascii_digit() {
        number(text)
    } else if let Some((len, kind)) = symbol(text) {
        Lexeme::token(len, kind)
    } else {
        name_or_bad(text)
    }
}

fn is_blank(byte: u8) -> bool
    ensures { result ≡ is_blank byte }
{
    byte == b' ' || byte == b'\t' || byte == b'\r' || byte == b'\n'
}

fn blanks_len(text: &[u8]) -> usize
    ensures { result ≡ prefix_len is_blank text.now }
{
    text.iter().take_while(|b| is_blank(**b)).count()
}

// A comment ends before the line feed.
fn comment_len(text: &[u8]) -> usize
    ensures { result ≡ prefix_len (λ b. not (is_line_feed b)) text.now }
{
    memchr(b'\n', text).unwrap_or(text.len())
}

#[tactic(auto, unfolding(crate::specs::Longest::symbol_of))]
fn symbol(text: &[u8]) -> Option<(usize, TokenKind)>
    requires { 0 < length text.now }
    ensures { result ≡ symbol_of (slice_index text.now 0) (slice_index text.now 1) }
{
    let kind = match text[0] {
        b'-' if text.len() > 1 && text[1] == b'>' => return Some((2, TokenKind::Arrow)),
        b':' => TokenKind::Colon,
        b'=' => TokenKind::Equals,
        b';' => TokenKind::Semicolon,
        b'*' => TokenKind::Star,
        b'(' => TokenKind::LeftParenthesis,
        b')' => TokenKind::RightParenthesis,
        b'[' => TokenKind::LeftBracket,
        b']' => TokenKind::RightBracket,
        b',' => TokenKind::Comma,
        b'-' => TokenKind::Minus,
        b'?' => TokenKind::QuestionMark,
        _ => return None,
    };
    Some((1, kind))
}
