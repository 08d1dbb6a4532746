// Why a graph gets no picture.
use chyp_base::NoMemory;
use thiserror::Error;

/// Why a graph gets no picture.
#[derive(Clone, Copy, Debug, PartialEq, Eq, Error)]
pub enum LayoutError {
    /// The picture has more than `MOST_POINTS` boxes and bends.
    #[error("{points} boxes and bends are too many for a picture")]
    TooBig {
        /// How many boxes and bends it has.
        points: u64,
    },
    /// There was no memory for the picture.
    #[error("no memory")]
    NoMemory,
}

impl From<NoMemory> for LayoutError {
    ghost use Rattle.std.specs.Prelude.{◌≡◌};
    ghost use Rattle.chyp_layout.specs.declared.layout_error.LayoutError.{LayoutError};
    ghost use Rattle.chyp_layout.specs.declared.layout_error.LayoutError.TheVariants.{NoMemory};

    ghost from_gives = { λ _ error. error ≡ NoMemory };

    fn from(_: NoMemory) -> LayoutError {
        LayoutError::NoMemory
    }
}
