//! Pairs of items of two graphs, made one after the other and taken back.
//!
//! A [`Pairing`] is a list of [`Pair`]s, a partial one-to-one map of wires and one of edges from one
//! graph to another, with tables of images both ways. It takes all its memory when it is made: then
//! [`Pairing::add_wires`] and [`Pairing::add_edges`] add a pair, and [`Pairing::undo`] takes the last
//! pairs away again, at a cost of one step for each. Searches for a map between two graphs work in it.
#![tactic(auto)]

mod pair;
mod pairing;

pub use pair::Pair;
pub use pairing::Pairing;
