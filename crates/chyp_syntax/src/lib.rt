//! Chunks and trees: the tokens of a theory text, cut into statements and read.
//!
//! [`chunks`] cuts a text's tokens in front of each statement keyword: the chunks tile the tokens,
//! and each list of tokens has exactly one such list of chunks
//! ([`each_text_has_one_list_of_chunks`]). [`parse`] gives the tree of a chunk where its tokens are
//! a sentence, by a grammar that is a relation between tokens and trees, and else names the first
//! token with which they begin no sentence, whatever follows. A sentence has one tree
//! ([`each_sentence_has_one_tree`]), each chunk is a sentence or fails at such a place
//! ([`each_chunk_is_a_sentence_or_fails`]), and what begins the beginning of a sentence begins a
//! sentence ([`each_beginning_of_a_prefix_is_one`]). Trees hold no text: a name, an `=`, a `;` or a
//! `sw` is named by its token's number within the chunk. What a statement shows of itself without its
//! tree, its keyword, its name and where its tokens begin, is told by [`kind_text`], [`shown_name`],
//! [`declared_name`], [`token_start`] and [`text_at`]. All take time in proportion to the tokens.
#![tactic(auto)]

mod chunk;
mod error;
mod heading;
mod laws;
mod parser;
mod statement;
mod step;
mod steps;
mod term;
mod terms;
mod tokens;

pub use chunk::{Chunk, chunks, each_text_has_one_list_of_chunks};
pub use error::ParseError;
pub use heading::{chunk_tokens, declared_name, kind_text, shown_name, text_at, token_start};
pub use laws::{
    each_beginning_of_a_prefix_is_one, each_chunk_is_a_sentence_or_fails,
    each_sentence_has_one_tree,
};
pub use parser::parse;
pub use statement::Ast;
pub use step::{ReasonAst, SignedAst, SignedAsts, StepAst, StepAsts};
pub use term::{Numbers, Spots, TermAst, TermAsts};
