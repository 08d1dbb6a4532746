//! The tokens of a theory text.
//!
//! `lex` cuts any bytes, valid UTF-8 or not, into tokens: names, dotted names, numbers, symbols and
//! reserved words, with blanks and `#` comments between them. Each `Token` is the longest lexeme at
//! the first byte that isn't covered yet (the rule of maximal munch), and where no lexeme begins, a
//! bad token takes one character or one byte. The tokens' `TokenKind`, places and values are those
//! of the definition `AreTokens`, which the code isn't part of: exactly one list fits each text,
//! says `every_text_has_one_token_list`. The tokens stand in order inside the text, none is empty, and
//! the bytes of names are UTF-8, says `each_name_is_text`. A text has at most
//! `MAX_TEXT_LEN` bytes, and
//! `lex` fails for want of memory alone.
#![tactic(auto)]

mod laws;
mod lexeme;
mod lexer;
mod name;
mod number;
mod token;
mod word;

pub use laws::{each_name_is_text, every_text_has_one_token_list};
pub use lexer::lex;
pub use token::{Token, TokenKind};
