//! Isomorphism of graphs of string diagrams, with both interfaces fixed.
//!
//! [`same`] gives an isomorphism from one graph to another, or None where there is none at all. It
//! works in a [`Scratch`] that was made before, and takes no memory. What hangs on the interface is
//! followed once; each part without interface is tried at the edges of the other graph, one after the
//! other, until it fits.
#![tactic(auto)]

mod compare;
mod find;
mod follow;
mod iso;
mod room;
mod scratch;
mod search;

pub use compare::same;
pub use iso::Iso;
pub use scratch::Scratch;
