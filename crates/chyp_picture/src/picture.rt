// Pictures.
use crate::{Boxes, Lines};

/// A string diagram in columns, from the left to the right.
///
/// Inputs stand in column 0, boxes in columns from 1, and outputs in the column behind the last of
/// these.
#[derive(Debug, Drop)]
pub struct Picture {
    /// The width of the picture.
    pub width: u64,
    /// The height of the picture.
    pub height: u64,
    /// How many columns stand between the inputs and the outputs.
    pub columns: u32,
    /// The boxes, in the order of the edges.
    pub boxes: Boxes,
    /// The lines, in the order of the wires.
    pub lines: Lines,
    /// The number of inputs.
    pub inputs: u32,
    /// The number of outputs.
    pub outputs: u32,
}
