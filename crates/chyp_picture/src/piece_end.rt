// Ends of wire pieces.
/// Where a piece of a wire meets a column.
///
/// Ends of one column are ordered by position, and those at one box by port.
#[derive(Clone, Copy, Debug, PartialEq, Eq, PartialOrd, Ord)]
pub struct PieceEnd {
    /// The position of the end's box, bend, input or output in its column, from 0 at the top.
    pub position: u32,
    /// The number of the port on its side of a box, from 0 at the top, and 0 elsewhere.
    pub port: u32,
}
