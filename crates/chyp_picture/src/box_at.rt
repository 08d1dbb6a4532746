// Boxes of pictures.
use chyp_base::Name;

/// The box of an edge, with its place.
#[derive(Debug, Drop)]
pub struct BoxAt {
    /// The name of the generator that the box stands for.
    pub name: Name,
    /// The column of the box; the first column with boxes is 1.
    pub column: u32,
    /// The position of the box among the boxes and bends of its column, from 0 at the top.
    pub place: u32,
    /// How far below the top of the picture its top is.
    pub top: u64,
    /// The height of the box.
    pub height: u64,
}
