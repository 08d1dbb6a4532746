//! Writes texts whole, into any sink.
//!
//! [`write_text`] appends a text to a sink and [`write_all`] several, one behind the other; they stop at
//! the first failure, and then have appended a prefix. They take no memory. `Writes` of
//! `specs/Writing.antt` is what a writer promises.
#![tactic(auto)]

mod write;

pub use write::{write_all, write_text};
