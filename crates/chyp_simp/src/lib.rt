//! Rewriting by rules in a fixed order as far as they go, as a definition and laws.
//!
//! A run looks at its rules in their order, and applies the first whose left side has an occurrence in
//! the graph, at its least one; then it begins again at the first rule. It ends in a normal form, where
//! no rule has an occurrence; or where it comes to a rule with more than [`MOST_PLACEMENTS`] placements;
//! or at the limit, where one more rewrite would follow on [`MOST_REWRITES`]. [`Ending`] says how, and
//! [`Comparison`] how the runs from two terms compare. That each run has exactly one end, that each of
//! its rewrites is one in a context, and what follows for two terms, are law functions, whose bodies are
//! empty (Bonchi, Gadducci, Kissinger, Sobociński and Zanasi, String Diagram Rewrite Theory II).
#![tactic(auto)]

ghost use Rattle.chyp_simp.specs.Laws.{EachRunHasOneEnd, NormalFormsAreDerived, RewritesAreInContext};
ghost use Rattle.chyp_simp.specs.Comparing.{EachStepHasOneComparison, EqualsAreDerived};

mod comparison;
mod ending;
mod limits;

pub use comparison::Comparison;
pub use ending::Ending;
pub use limits::{MOST_PLACEMENTS, MOST_REWRITES};

/// Over all rules within the limits on terms, and all graphs: each run has exactly one end.
pub fn each_run_has_one_end()
    ensures { EachRunHasOneEnd }
{}

/// Over all valid graphs: each rewrite of a run is one of its rules in a context, between the terms
/// that are read back from the graphs; it leads to a valid graph of the same type. A term and what is
/// read back from its normal form have a derivation from the rules.
pub fn rewrites_are_in_context()
    ensures context { RewritesAreInContext }
    ensures derived { NormalFormsAreDerived }
{}

/// Over all terms: two terms of one type compare in exactly one way, and where they are equal, they
/// have a derivation from the rules.
pub fn each_step_has_one_comparison()
    ensures one { EachStepHasOneComparison }
    ensures derived { EqualsAreDerived }
{}
