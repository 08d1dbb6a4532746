// Where items stand.
/// Where an item stands.
#[derive(Clone, Copy, Debug)]
pub struct Spot {
    /// The column; the first column with boxes is 1.
    pub column: u32,
    /// The position in the column, from 0 at the top.
    pub place: u32,
    /// How far below the top of the picture its top is.
    pub top: u64,
}
