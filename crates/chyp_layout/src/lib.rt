//! Layered layout of string diagrams: from a graph to its picture; no command draws yet.
//!
//! [`layout`] gives the picture that `picture_of` of `specs/PictureOf.antt` names, after Sugiyama,
//! Tagawa and Toda: the box of an edge stands one column behind the last of the boxes that make its
//! sources, a wire bends in each column between its ends, and four sweeps sort the columns by the
//! means of the neighbours' positions; of the five orders the first with the fewest crossings is
//! drawn. Columns, the first order, sweeps and numbers have a page of `specs/` each. The types of what
//! stands in columns, and where, are named for laws on these definitions; no call gives them.
#![tactic(auto)]

mod bounds;
mod column;
mod columns;
mod crossings;
mod drawn;
mod ends;
mod gap;
mod item;
mod layering;
mod layout_error;
mod means;
mod order;
mod picture;
mod placed;
mod ranked;
mod side;
mod spot;
mod spots;
mod sweep;
mod trail;

pub use ends::Ends;
pub use item::Item;
pub use layering::layout;
pub use layout_error::LayoutError;
pub use placed::Placed;
pub use side::Side;
pub use spot::Spot;
