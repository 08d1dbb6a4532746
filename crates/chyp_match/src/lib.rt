//! Where a pattern occurs in a graph.
//!
//! [`placements`] counts how the components of a pattern may begin in a graph: each begins with an
//! edge or with a bare wire, which may go to each edge of its name or to each wire of its sort.
//! [`Occurrences`] gives all convex occurrences in lexicographic order, each once, and takes no memory
//! once it is made. It goes through the ways to begin the components in order; from the first edge of a
//! component it follows the ports, so that the image of that edge fixes those of the whole component;
//! and it asks of what it finds whether no edge that takes the image of an output leads to one that
//! makes the image of an input, which is convexity (Bonchi, Gadducci, Kissinger, Sobociński and Zanasi,
//! String Diagram Rewrite Theory II). Which edges lead to an edge is found when it is first asked for, in
//! memory that was taken before. It works on a [`Listed`] graph, which has lists of its edges by name and
//! of its wires by sort and is a [`View`].
//! `occurrences_are_few` says over all graphs that the occurrences of one in another are one list, and
//! that it is no longer than the count of placements, as a law function, whose body is empty.
#![tactic(auto)]

ghost use Rattle.chyp_match.specs.Occurring.{OccurrencesAreBounded, OccurrencesAreListed};

mod convex;
mod finder;
mod follow;
mod level;
mod levels;
mod listed;
mod lists;
mod occurrences;
mod placement;
mod reach;
mod row;
mod search;
mod view;

pub use listed::Listed;
pub use occurrences::Occurrences;
pub use placement::placements;
pub use view::View;

/// Over all graphs: the occurrences of one in another are one list, in lexicographic order; and a
/// pattern has no more of them in a valid graph than the product that its placements count.
pub fn occurrences_are_few()
    ensures listed { OccurrencesAreListed }
    ensures bounded { OccurrencesAreBounded }
{}
