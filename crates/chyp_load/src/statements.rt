// The statements of a text.
ghost use Rattle.std.specs.Prelude.{◌≡◌, ◌≤◌, ◌<◌, IfOk, Some, length, slice_get};
ghost use Rattle.chyp_lex.specs.Tokens.{text_limit};
ghost use Rattle.chyp_verdicts.specs.Texts.{statements_of};
ghost use Rattle.chyp_load.specs.Statements.{IsCut};

use chyp_base::NoMemory;
use chyp_env::ChunkView;
use chyp_lex::{Token, each_name_is_text, lex};
use chyp_syntax::{Chunk, chunk_tokens, chunks};
use std::alloc::Global;
use std::marker::Model;

/// A text with its tokens, cut into the chunks of its statements. Contracts see it as a record of
/// `specs/Statements.antt`.
#[derive(Drop)]
pub struct Statements<'a> {
    text: &'a [u8],
    tokens: Vec<Token>,
    chunks: Vec<Chunk>,
}

impl<'a> Model for Statements<'a> {
    ghost use Rattle.chyp_load.specs.Statements.{CutText, IsCut};

    ghost Value = { CutText };

    ghost view = { λ s. record { text = s.text.now; tokens = s.tokens.items; chunks = s.chunks.items } };

    ghost invariant = { λ s. IsCut (record { text = s.text.now; tokens = s.tokens.items; chunks = s.chunks.items }) };
}

impl<'a> Statements<'a> {
    /// The statements of a text.
    ///
    /// # Errors
    ///
    /// `NoMemory` where its tokens or its chunks can't be kept.
    pub fn new(alloc: Global, text: &'a [u8]) -> Result<Statements<'a>, NoMemory>
        requires { length text.now ≤ text_limit }
        ensures { IfOk result (λ statements. statements.text ≡ text.now) }
    {
        each_name_is_text();
        let tokens = lex(alloc, text, b"")?;
        let chunks = chunks(alloc, &tokens)?;
        Ok(Statements {
            text,
            tokens,
            chunks,
        })
    }

    /// The text.
    pub fn text(&self) -> &'a [u8]
        ensures { result.now ≡ self.now.text }
    {
        self.text
    }

    /// Its tokens, in order.
    pub fn tokens(&self) -> &[Token]
        ensures { result.now ≡ self.now.tokens }
    {
        &self.tokens
    }

    /// Its chunks, one for each statement, in order.
    pub fn chunks(&self) -> &[Chunk]
        ensures { result.now ≡ self.now.chunks }
    {
        &self.chunks
    }

    /// How many statements there are.
    pub fn count(&self) -> usize
        ensures { result ≡ length self.now.chunks }
    {
        self.chunks.len()
    }

    /// The statement of this number.
    pub fn statement(&self, number: usize) -> ChunkView<'_>
        requires { number < length self.now.chunks }
        ensures { slice_get (statements_of self.now.text self.now.tokens self.now.chunks) number ≡ Some result }
    {
        ChunkView::new(
            chunk_tokens(&self.tokens, self.chunks[number]),
            self.text,
            &[],
        )
    }

    /// The text is short, and these are its tokens and its chunks.
    pub fn cut(&self)
        ensures { IsCut self.now }
    {
        let _ = &self.text;
    }
}
