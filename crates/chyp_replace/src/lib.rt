//! A graph with an occurrence of one side of a rule replaced by the other side.
//!
//! [`replace`] is the pushout step of rewriting graphs (Bonchi, Gadducci, Kissinger, Sobociński and
//! Zanasi, String Diagram Rewrite Theory II): the image of the left side goes, what is left keeps its
//! order, and the wires and edges of the right side come behind it. It takes time and memory in
//! proportion to the graph and the two sides together. That the new graph is valid is no test but a
//! theorem on all graphs, `replaced_are_valid` of `chyp_extract`.
#![tactic(auto)]

mod images;
mod layout;
mod numbers;
mod renumbered;
mod replacement;

pub use replacement::replace;
