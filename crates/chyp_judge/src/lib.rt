//! Judgements on the steps of rewrites: whether a step leads from one term to the next one.
//!
//! [`judge`] answers by the graphs of the terms. A step without a rule is [`Judged::Good`] exactly where
//! the monoidal laws derive the equation of its terms, which is where their graphs are isomorphic. A step
//! by a rule is good exactly where the rule, in some context, rewrites the first term to the second, which
//! is where the graph of the first, with some convex occurrence of the left side replaced by the right
//! side, is isomorphic to that of the second (Bonchi, Gadducci, Kissinger, Sobociński and Zanasi, String
//! Diagram Rewrite Theory II). A rule with more than [`MOST_PLACEMENTS`] placements is not tried. A step by
//! `simp` is good exactly where its rules lead both terms, in at most [`MOST_REWRITES`] rewrites each, to
//! normal forms whose equation the monoidal laws derive.
#![tactic(auto)]

mod difference;
mod differences;
mod judged;
mod limits;
mod partners;
mod rewrite;
mod step;
mod walk;

pub use chyp_term::{Equation, Step};
pub use judged::Judged;
pub use limits::{MOST_PLACEMENTS, MOST_REWRITES};
pub use step::judge;
