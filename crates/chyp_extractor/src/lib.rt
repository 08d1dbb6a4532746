//! The term that is read back from a graph, made, and measured without making it. No command needs it yet.
//!
//! [`extract`] gives exactly the term that the definition in `chyp_extract` reads back from a graph: one
//! chain, halved, of permutations and of layers of boxes and wires, round by round. By the laws there it
//! has a type, and its graph is isomorphic to the graph. It takes time and memory in proportion to that
//! term. [`measure`] tells exactly the size, the depth and the number of generators of that term, in time
//! and memory in proportion to the graph, which the term can be much larger than: each of its rounds
//! has all the wires that are live then.
#![tactic(auto)]

mod crossing;
mod extraction;
mod front;
mod halving;
mod join;
mod layer;
mod measures;
mod measuring;
mod round;
mod rounds;
mod tally;

pub use extraction::extract;
pub use measures::Measures;
pub use measuring::measure;
