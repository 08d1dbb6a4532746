//! Terms of string diagrams: generators, permutations of wires, composition and tensor.
//!
//! A [`Term`] is a tree, typed or not; contracts see it as a morphism of the free coloured PROP on its
//! generators, and `specs/` has the types of such terms, the nine laws of symmetric strict monoidal
//! categories, derivations from equations by these laws, and rewriting in a context. [`shape_of`] gives
//! the type of a term exactly where it has one, and [`copy`] an equal term; [`size`], [`depth`] and
//! [`gens`] measure a term without taking memory. A [`Perm`] is a permutation of wires, always:
//! [`Perm::new`] answers None exactly where the places that it is given are no permutation. The other
//! permutations are exactly those that the laws name: [`Perm::compose`] and [`Perm::beside`] of two,
//! [`Perm::invert`] of one, [`Perm::block_swap`] of two blocks of wires. An [`Equation`] is two terms,
//! and a [`Step`] says why a term is said to equal the next one.
#![tactic(auto)]

mod equation;
mod equations;
mod limits;
mod measure;
mod perm;
mod places;
mod shape;
mod shape_error;
mod step;
mod step_list;
mod term;
mod terms;

pub use equation::Equation;
pub use equations::Equations;
pub use limits::{MOST_DEPTH, MOST_GENERATORS, MOST_PORTS, MOST_SIZE};
pub use measure::{depth, gens, size};
pub use perm::Perm;
pub use places::Places;
pub use shape::{Shape, shape_of};
pub use shape_error::ShapeError;
pub use step::Step;
pub use step_list::StepList;
pub use term::{Term, copy};
pub use terms::Terms;
