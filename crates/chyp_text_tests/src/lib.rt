//! The tests of the crates that lead from a text to the terms of its statements.
//!
//! A crate with tests is proved twice, with them and without, so these crates have theirs here.
//! `tokens` tests `chyp_lex`, `trees` tests `chyp_syntax`, `statements` tests `chyp_names`, and through it
//! the calls of `chyp_env`, and `imports` tests what both have for imports. `names` tells names of the
//! language.
#![tactic(auto)]

#[cfg(test)]
mod imports;
#[cfg(test)]
mod names;
#[cfg(test)]
mod statements;
#[cfg(test)]
mod tokens;
#[cfg(test)]
mod trees;
