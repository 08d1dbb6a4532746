//! Pictures of string diagrams, in columns, and how often their wires cross; no command draws yet.
//!
//! A [`Picture`] has a list of boxes, which stand in columns, and a list of lines, each from an input or
//! a port to an output or a port, with a bend in each column between; `specs/Picture.antt` says which
//! pictures are whole. Between two adjacent columns each line that passes has a [`Piece`]. [`crossings`]
//! is the number of crossings of a picture, exactly and without memory, and [`crossing_count`] that of
//! the pieces between two columns, in n log n steps.
#![tactic(auto)]

mod bends;
mod box_at;
mod boxes;
mod crossing;
mod end;
mod inversions;
mod limits;
mod line;
mod lines;
mod picture;
mod piece;
mod piece_end;
mod point;

pub use bends::Bends;
pub use box_at::BoxAt;
pub use boxes::Boxes;
pub use crossing::{column, crossing_count, crossings, piece_after};
pub use end::End;
pub use limits::{HEIGHT_BOUND, LONGEST_NAME, MOST_LINES, MOST_POINTS};
pub use line::Line;
pub use lines::Lines;
pub use picture::Picture;
pub use piece::Piece;
pub use piece_end::PieceEnd;
pub use point::Point;
