// Bends of lines.
/// A bend of a line, in the middle of a column.
#[derive(Clone, Copy, Debug, PartialEq, Eq)]
pub struct Point {
    /// The column of the bend; the first column with boxes is 1.
    pub column: u32,
    /// The position of the bend among the boxes and bends of its column, from 0 at the top.
    pub place: u32,
    /// How far below the top of the picture the bend is.
    pub y: u64,
}
