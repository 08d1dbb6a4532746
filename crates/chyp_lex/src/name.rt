// Identifiers and dotted names, and what is left where none begins.
ghost use Rattle.std.specs.Prelude.{◌≡◌, ◌==◌, ◌<◌, ◌≤◌, if◌then◌else◌, length, take, IfSome};
ghost use Rattle.unicode_ident.specs.Ident.{is_xid_continue};
ghost use Rattle.chyp_lex.specs.Longest.{bad_of, character_len, continuation_len, identifier_len, member_len, members_len, name_of};
ghost use Rattle.chyp_lex.specs.Lexemes.{begins_identifier};
ghost use Rattle.chyp_lex.specs.Tokens.{value_of};

use crate::TokenKind;
use crate::lexeme::Lexeme;
use crate::word::kind_of_word;
use bstr::decode_utf8;
use unicode_ident::{is_xid_continue, is_xid_start};

pub(crate) fn name_or_bad(text: &[u8]) -> Lexeme
    ensures next { (if identifier_len text.now == 0 then bad_of text.now else name_of text.now) ≡ (result.len, result.kind) }
    ensures value { IfSome result.kind (λ kind. result.value ≡ value_of kind (take result.len text.now)) }
{
    let len = identifier_len(text);
    if len == 0 {
        return Lexeme::token(bad_len(text), TokenKind::Bad);
    }
    let more = members_len(&text[len..]);
    if more == 0 {
        return Lexeme::token(len, kind_of_word(&text[..len]));
    }
    Lexeme::token(len + more, TokenKind::Dotted)
}

// A whole character, or one byte.
fn bad_len(text: &[u8]) -> usize
    ensures { result ≡ (bad_of text.now).0 }
{
    match decode_utf8(text) {
        (Some(_), size) => size,
        (None, _) => 1,
    }
}

// The bytes of the identifier at the front, or 0.
#[tactic(auto, using(crate::proofs::NameSteps::identifier_steps))]
fn identifier_len(text: &[u8]) -> usize
    ensures value { result ≡ identifier_len text.now }
    ensures within { result ≤ length text.now }
{
    let first = start_len(text);
    if first == 0 {
        return 0;
    }
    let more = continuations_len(&text[first..]);
    first + more
}

// The bytes of `.` and an identifier at the front, or 0.
#[tactic(auto, using(crate::proofs::NameSteps::member_steps))]
fn member_len(text: &[u8]) -> usize
    ensures value { result ≡ member_len text.now }
    ensures within { result ≤ length text.now }
{
    if text.is_empty() || text[0] != b'.' {
        return 0;
    }
    let len = identifier_len(&text[1..]);
    if len == 0 { 0 } else { 1 + len }
}

// The bytes of one `.` and identifier after another.
fn members_len(text: &[u8]) -> usize
    ensures value { result ≡ members_len text.now }
    ensures within { result ≤ length text.now }
{
    let mut at = 0;
    while at < text.len() {
        let len = member_len(&text[at..]);
        if len == 0 {
            break;
        }
        at += len;
    }
    at
}

// The bytes of the characters that continue an identifier.
fn continuations_len(text: &[u8]) -> usize
    ensures value { result ≡ continuation_len text.now }
    ensures within { result ≤ length text.now }
{
    let mut at = 0;
    while at < text.len() {
        let len = continue_len(&text[at..]);
        if len == 0 {
            break;
        }
        at += len;
    }
    at
}

// The bytes of a character that begins an identifier, or 0.
#[tactic(auto, using(crate::proofs::NameSteps::character_steps))]
fn start_len(text: &[u8]) -> usize
    ensures value { result ≡ character_len begins_identifier text.now }
    ensures within { result ≤ length text.now }
{
    if text.is_empty() {
        return 0;
    }
    let byte = text[0];
    if byte < 128 {
        return if begins_identifier_ascii(byte) { 1 } else { 0 };
    }
    let (found, size) = decode_utf8(text);
    match found {
        Some(c) => if begins_identifier(c) { size } else { 0 },
        None => 0,
    }
}

// The bytes of a character that continues an identifier, or 0.
#[tactic(auto, using(crate::proofs::NameSteps::character_steps))]
fn continue_len(text: &[u8]) -> usize
    ensures value { result ≡ character_len is_xid_continue text.now }
    ensures within { result ≤ length text.now }
{
    if text.is_empty() {
        return 0;
    }
    let byte = text[0];
    if byte < 128 {
        return if continues_identifier_ascii(byte) {
            1
        } else {
            0
        };
    }
    let (found, size) = decode_utf8(text);
    match found {
        Some(c) => if is_xid_continue(c) { size } else { 0 },
        None => 0,
    }
}

fn begins_identifier(c: char) -> bool
    ensures { result ≡ begins_identifier c }
{
    c == '_' || is_xid_start(c)
}

// Without the tables of Unicode.
#[tactic(auto, using(crate::proofs::NameSteps::ascii_steps))]
fn begins_identifier_ascii(byte: u8) -> bool
    requires { byte < 128 }
    ensures { result ≡ begins_identifier byte }
{
    byte == b'_' || byte.is_ascii_alphabetic()
}

#[tactic(auto, using(crate::proofs::NameSteps::ascii_steps))]
fn continues_identifier_ascii(byte: u8) -> bool
    requires { byte < 128 }
    ensures { result ≡ is_xid_continue byte }
{
    byte.is_ascii_alphanumeric() || byte == b'_'
}
