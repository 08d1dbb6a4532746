// Lines of pictures.
use crate::{Bends, End};
use chyp_base::Sort;

/// The line of a wire, from the left to the right.
#[derive(Debug, Drop)]
pub struct Line {
    /// The sort of the wire.
    pub sort: Sort,
    /// The input or the port at its left end.
    pub from: End,
    /// The output or the port at its right end.
    pub to: End,
    /// Its bends, one in each column between its ends.
    pub bends: Bends,
    /// How far below the top of the picture its left end is.
    pub y_from: u64,
    /// How far below the top of the picture its right end is.
    pub y_to: u64,
}
