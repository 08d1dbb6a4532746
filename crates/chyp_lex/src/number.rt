// Runs of digits.
ghost use Rattle.std.specs.Prelude.{◌≡◌, ◌≤◌, ◌^◌, take, IfSome, MatchOption};
ghost use Rattle.std.specs.Char.{is_ascii_digit};
ghost use Rattle.std.specs.List.{AllPass, prefix_len};
ghost use Rattle.std.specs.Str.Parse.{digits_value};
ghost use Rattle.chyp_lex.specs.Longest.{number_of};
ghost use Rattle.chyp_lex.specs.Tokens.{value_of};

use crate::TokenKind;
use crate::lexeme::Lexeme;

pub(crate) fn number(text: &[u8]) -> Lexeme
    ensures number { number_of text.now ≡ (result.len, result.kind) }
    ensures value { IfSome result.kind (λ kind. result.value ≡ value_of kind (take result.len text.now)) }
{
    let len = digits_len(text);
    match value_of_digits(&text[..len]) {
        Some(value) => Lexeme {
            len,
            kind: Some(TokenKind::Number),
            value,
        },
        None => Lexeme::token(len, TokenKind::Bad),
    }
}

fn digits_len(text: &[u8]) -> usize
    ensures { result ≡ prefix_len is_ascii_digit text.now }
{
    text.iter().take_while(|b| b.is_ascii_digit()).count()
}

// None where the value takes more than 64 bits.
fn value_of_digits(digits: &[u8]) -> Option<u64>
    requires { AllPass is_ascii_digit digits.now }
    ensures { MatchOption result (2 ^ 64 ≤ digits_value 10 digits.now) (λ value. value ≡ digits_value 10 digits.now) }
{
    let mut value: u64 = 0;
    for digit in digits {
        value = value
            .checked_mul(10)?
            .checked_add(u64::from(*digit - b'0'))?;
    }
    Some(value)
}
