// Why modules are not read.
ghost use Rattle.std.specs.Prelude.{◌≡◌};

use chyp_base::NoMemory;
use thiserror::Error;

/// Why the modules of a text were not all read.
#[derive(Clone, Copy, Debug, PartialEq, Eq, Error)]
pub enum LoadError {
    /// The library failed. Its count of faults rose.
    #[error("the library failed")]
    Failed,
    /// The text of a module passes the limit, or more modules are there than are allowed.
    #[error("the modules are too long, or too many")]
    TooLong,
    /// There was no memory for the modules.
    #[error("no memory")]
    NoMemory,
}

impl From<NoMemory> for LoadError {
    ghost use Rattle.chyp_load.specs.declared.load_error.LoadError.{LoadError};
    ghost use Rattle.chyp_load.specs.declared.load_error.LoadError.TheVariants.{NoMemory};

    ghost from_gives = { λ _ error. error ≡ NoMemory };

    fn from(_: NoMemory) -> Self {
        LoadError::NoMemory
    }
}
