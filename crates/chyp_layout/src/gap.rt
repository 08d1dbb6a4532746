// Gaps between columns.
ghost use Rattle.std.specs.Prelude.{◌≡◌, [], ◌∷◌, ◌++◌, IfOk};

use chyp_base::NoMemory;
use chyp_picture::Piece;
use std::alloc::Global;
use std::marker::Model;

/// The pieces of wires between two adjacent columns.
#[derive(Debug, Drop)]
pub(crate) struct Gap {
    pieces: Vec<Piece>,
}

impl Model for Gap {
    ghost use Rattle.std.specs.Prelude.{List};
    ghost use Rattle.chyp_picture.specs.declared.piece.Piece.{Piece};

    ghost Value = { List Piece };

    ghost view = { λ gap. gap.pieces.items };
}

impl Gap {
    /// A gap with no piece. It takes no memory.
    pub(crate) fn new(alloc: Global) -> Gap
        ensures { result ≡ [] }
    {
        Gap {
            pieces: Vec::new(alloc),
        }
    }

    /// Adds a piece.
    pub(crate) fn push(&mut self, piece: Piece) -> Result<(), NoMemory>
        ensures { IfOk result (λ _. self.new ≡ self.old ++ piece ∷ []) }
    {
        Ok(self.pieces.push(piece)?)
    }

    /// The pieces. It takes no memory.
    pub(crate) fn into_vec(self) -> Vec<Piece>
        ensures { result.items ≡ self }
    {
        self.pieces
    }
}
