//! The n-th way to rewrite a term by a rule. No command cites it yet.
//!
//! [`nth_rewrite`] replaces the n-th convex occurrence of the left side of a rule, counted from 0 in
//! lexicographic order, in the graph of a term, and gives the term that is read back from the graph that
//! comes out (Bonchi, Gadducci, Kissinger, Sobociński and Zanasi, String Diagram Rewrite Theory II).
//! Whether that term is too big is told before it is made.
#![tactic(auto)]

mod nth;
mod redex;
mod rewriting;

pub use chyp_term::{Equation, Term};
pub use nth::Nth;
pub use rewriting::nth_rewrite;
