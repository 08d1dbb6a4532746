//! Rewriting by rules in a fixed order as far as they go.
//!
//! [`run`] does what the definition in `chyp_simp` says: again and again the first rule that has an
//! occurrence in the graph is applied at its least one, until none has one, or there is one with too
//! many placements, or the limit on rewrites is reached. It makes a new graph for each rewrite.
//! [`compare`] runs the same rules from two terms and says whether the monoidal laws give the equation
//! of their normal forms, by comparing these as graphs.
#![tactic(auto)]

mod comparing;
mod round;
mod rule;
mod running;

pub use chyp_simp::{Comparison, Ending};
pub use comparing::compare;
pub use rule::{Rule, rules_of};
pub use running::run;
