//! Relations on numbers, and where their chains lead.
//!
//! A [`Relation`] on the numbers below a count says which of them lead to which at once.
//! [`Relation::close`] makes it say which lead to which by one step or more, and
//! [`Relation::count`] then says to how many a number leads: fewer than each number that leads to it, where
//! it doesn't lead to itself. So numbers on no cycle, taken by their counts, come after all to which they
//! lead.
#![tactic(auto)]

mod relation;
mod row;

pub use relation::Relation;
