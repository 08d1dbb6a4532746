//! Items that are found by a number or by a name in a time that doesn't grow with how many there are,
//! and that are kept in the order in which they came; no program rests on it yet.
//!
//! A [`Store`] gives each item a number, which it keeps until it is taken out. [`Lists`] has a list
//! under each name. Both take their memory when they are told to, and none after that, so that a change
//! of many parts fails before its first part or not at all.
#![tactic(auto)]

mod lists;
mod store;

pub use lists::Lists;
pub use store::Store;
