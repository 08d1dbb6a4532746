//! The tests of `chyp_simp` and `chyp_simplifier`: `words` has the terms and rules that they are made of,
//! and `simplifying` the tables.
//!
//! They have a crate of their own, as a crate with tests is proved twice, with them and without. It has
//! no other code.
#![tactic(auto)]

#[cfg(test)]
mod simplifying;
#[cfg(test)]
mod words;
