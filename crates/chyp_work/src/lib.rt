//! Graphs by numbers: each edge and each wire keeps its number while others come and go, so that a
//! rewriting step changes the graph in place; no program rests on it yet.
//!
//! [`Work`] is such a graph, always valid, and a `View`. It is made of a graph, or empty, takes steps by
//! [`Work::step`], and gives its plain graph. A step first takes all the memory that it wants; then the
//! right side of the rule comes beside what is there, its inputs and outputs take the places of the
//! images of those of the left side, and the image goes. [`replaced_by_numbers`] says that to replace
//! one side of a rule by the other is the same by numbers and by places.
#![tactic(auto)]

mod board;
mod end;
mod ends;
mod filling;
mod laws;
mod numbering;
mod parts;
mod plain;
mod rewiring;
mod step;
mod work;

pub use laws::{replaced_by_numbers, reroutes_are_substitutions};
pub use work::Work;
