// Why no type of a term was found.
use chyp_base::NoMemory;

/// Why no type of a term was found.
#[derive(Clone, Copy, Debug, PartialEq, Eq)]
pub enum ShapeError {
    /// The term is not well typed.
    Clash,
    /// There was no memory for the type.
    NoMemory,
}

impl From<NoMemory> for ShapeError {
    ghost use Rattle.std.specs.Prelude.{◌≡◌};
    ghost use Rattle.chyp_term.specs.declared.shape_error.ShapeError.{ShapeError};
    ghost use Rattle.chyp_term.specs.declared.shape_error.ShapeError.TheVariants.{NoMemory};

    ghost from_gives = { λ _ error. error ≡ NoMemory };

    fn from(_: NoMemory) -> ShapeError {
        ShapeError::NoMemory
    }
}
