//! What is written for people: places of a text, report lines, and replies.
//!
//! [`line_col`] is the line and column of a byte, and [`moved_on`] that of a later byte, so that the
//! places of all statements and of the tokens that their verdicts name cost two passes over the text.
//! [`write_line`] appends one line of a report to a sink, and [`write_reply`] a reply; both take no
//! memory, and where the sink fails they have written a prefix. Numbers are decimal, without leading
//! zeros.
#![tactic(auto)]

mod line;
mod place;
mod reply;

pub use line::{Line, write_line};
pub use place::{Place, START, line_col, moved_on};
pub use reply::{Reply, write_reply};

#[cfg(test)]
mod tests;
