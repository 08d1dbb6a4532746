//! Tests of the crates about terms and graphs: `chyp_term`, `chyp_theory`, `chyp_graph`, `chyp_iso`,
//! `chyp_pattern`, `chyp_match`, `chyp_laws`, `chyp_judge`, `chyp_nth`, `chyp_replace`, `chyp_work` and
//! `chyp_layout`, with a module for each topic, and the small terms that they share in `diagrams`.
//!
//! They have a crate of their own, as a crate with tests is proved twice, with them and without. It has
//! no other code.
#![tactic(auto)]

#[cfg(test)]
mod diagrams;
#[cfg(test)]
mod graphs;
#[cfg(test)]
mod isomorphism;
#[cfg(test)]
mod judging;
#[cfg(test)]
mod laws;
#[cfg(test)]
mod layouts;
#[cfg(test)]
mod occurrences;
#[cfg(test)]
mod patterns;
#[cfg(test)]
mod replacing;
#[cfg(test)]
mod rewriting;
#[cfg(test)]
mod slow_search;
#[cfg(test)]
mod terms;
#[cfg(test)]
mod working;
