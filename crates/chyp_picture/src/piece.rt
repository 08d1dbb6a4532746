// Pieces of wires.
ghost use Rattle.std.specs.Prelude.{◌≡◌};

use crate::PieceEnd;

/// The part of a wire between a column and the next.
///
/// Pieces are ordered by their left ends, and those from one left end by their right ends.
#[derive(Clone, Copy, Debug, PartialEq, Eq, PartialOrd, Ord)]
pub struct Piece {
    /// Its end in the column on the left.
    pub left: PieceEnd,
    /// Its end in the column on the right.
    pub right: PieceEnd,
}

impl Piece {
    ghost use Rattle.chyp_picture.specs.Crossings.{crosses};

    /// Whether the two pieces cross: one left end is before the other, and the right ends stand the
    /// other way round. Pieces that share an end don't cross.
    pub fn crosses(&self, other: &Piece) -> bool
        ensures { result ≡ crosses self.now other.now }
    {
        (self.left < other.left && other.right < self.right)
            || (other.left < self.left && self.right < other.right)
    }
}
