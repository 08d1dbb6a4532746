//! Patterns: graphs with their connected components, to be looked for in other graphs.
//!
//! A [`Pattern`] is a graph with its components, found in time and memory in proportion to it:
//! [`Pattern::anchor`] is the first edge of each, or the one wire of a component without edges. An
//! [`Occurrence`] has the images of the edges and of the wires of a graph in another. `specs/` defines
//! components, placements, convex occurrences and the one list of them, and what a graph becomes where
//! an occurrence in it is replaced (Bonchi, Gadducci, Kissinger, Sobociński and Zanasi, String Diagram
//! Rewrite Theory II); `proofs/` shows that whether images are an occurrence is decided, and that there
//! is exactly one list of them.
#![tactic(auto)]

mod anchor;
mod components;
mod occurrence;
mod pattern;
mod sweep;

pub use anchor::Anchor;
pub use occurrence::Occurrence;
pub use pattern::Pattern;
