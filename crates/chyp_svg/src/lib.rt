//! Pictures as SVG texts; no command draws yet.
//!
//! [`write_svg`] appends the text of a picture to any sink, and [`svg_len`] is the length of that text,
//! so that a reader can be told it before; neither takes memory. `drawing_of` of `specs/Drawing.antt` is
//! the text.
#![tactic(auto)]

mod boxes;
mod curve;
mod label;
mod path;
mod place;
mod svg;

pub use svg::{svg_len, write_svg};
