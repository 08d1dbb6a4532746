// Statements that are lent.
ghost use Rattle.std.specs.Prelude.{◌≡◌, ◌≤◌, ◌++◌, ℕ, List, IfOk, Err, length, option_copied};
ghost use Rattle.chyp_lex.specs.Tokens.{text_limit};
ghost use Rattle.chyp_syntax.specs.Failing.{FailsAt};
ghost use Rattle.chyp_syntax.specs.Heading.{declared_name};
ghost use Rattle.chyp_syntax.specs.Sentence.{IsSentence};
ghost use Rattle.chyp_syntax.specs.Statement.{statement_of};
ghost use Rattle.chyp_syntax.specs.Words.{bytes_at, keyword_in, words_of};
ghost use Rattle.chyp_env.specs.ChunkView.{AreNamed, AreSpelled, IsLent};

use chyp_lex::{Token, TokenKind};
use chyp_syntax::{Ast, ParseError, declared_name, parse, text_at};
use std::alloc::Global;
use std::marker::Model;

/// The tokens of one statement, and the text in which their places count: two slices, one behind the
/// other. Contracts see it as the words of the statement.
#[derive(Debug, Drop)]
pub struct ChunkView<'a> {
    tokens: &'a [Token],
    first: &'a [u8],
    second: &'a [u8],
}

impl<'a> Model for ChunkView<'a> {
    ghost use Rattle.std.specs.Prelude.{List, ◌++◌};
    ghost use Rattle.std.specs.Coded.{coded_list};
    ghost use Rattle.chyp_syntax.specs.Words.{Word, words_of};
    ghost use Rattle.chyp_env.specs.Coded.{word_code};
    ghost use Rattle.chyp_env.specs.ChunkView.{IsLent};

    ghost Value = { List Word };

    ghost coded = { coded_list word_code };

    ghost view = { λ c. words_of (c.first.now ++ c.second.now) c.tokens.now };

    ghost invariant = { λ c. IsLent c.tokens.now c.first.now c.second.now };
}

impl<'a> ChunkView<'a> {
    /// The statement of these tokens, where `second`, the second part of the text, is empty: a text is
    /// lexed in one piece.
    pub fn new(tokens: &'a [Token], first: &'a [u8], second: &'a [u8]) -> ChunkView<'a>
        requires { IsLent tokens.now first.now second.now }
        ensures { result ≡ words_of (first.now ++ second.now) tokens.now }
    {
        ChunkView {
            tokens,
            first,
            second,
        }
    }

    /// How many words it has.
    pub fn count(&self) -> usize
        ensures { result ≡ length self.now }
    {
        self.tokens.len()
    }

    /// The bytes of the word of this number, none where there is no such word.
    pub fn bytes_at(&self, token: u32) -> &'a [u8]
        ensures { result.now ≡ bytes_at self.now token }
    {
        text_at(self.first, self.tokens, token)
    }

    /// The kind of the first word.
    pub fn keyword(&self) -> Option<TokenKind>
        ensures { result ≡ keyword_in self.now }
    {
        let first = self.tokens.first()?;
        Some(first.kind)
    }

    /// The name that the statement declares, whatever becomes of it.
    pub fn declared_name(&self) -> Option<&'a [u8]>
        ensures { option_copied result ≡ declared_name self.now }
    {
        declared_name(self.first, self.tokens)
    }

    /// The tree of the statement, where its words are a sentence.
    ///
    /// # Errors
    ///
    /// `Syntax` exactly where they are none, with the number of the first word that no sentence allows.
    /// `NoMemory` where the tree can't be kept.
    pub fn parse(&self, alloc: Global) -> Result<Ast, ParseError>
        ensures tree { IfOk result (λ ast. IsSentence self.now (statement_of ast)) }
        ensures syntax { (k : ℕ) → result ≡ Err (ParseError.Syntax k) → FailsAt self.now k }
    {
        parse(alloc, self.tokens)
    }

    /// Every identifier is UTF-8.
    pub fn spelled(&self)
        ensures { AreSpelled self.now }
    {
        let _ = &self.tokens;
    }

    /// Every identifier is a name by itself, and no reserved word.
    pub fn named(&self)
        ensures { AreNamed self.now }
    {
        let _ = &self.tokens;
    }

    /// It has no more words than a text has bytes.
    pub fn short(&self)
        ensures { length self.now ≤ text_limit }
    {
        let _ = &self.tokens;
    }
}
