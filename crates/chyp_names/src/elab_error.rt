// Why a statement has no body.
use chyp_base::{NoMemory, Verdict};

/// Why a statement has no body.
#[derive(Debug, Drop)]
pub enum ElabError {
    /// The statement is refused with this verdict.
    Refused(Verdict),
    /// There was no memory for the body.
    NoMemory,
}

impl From<NoMemory> for ElabError {
    ghost use Rattle.std.specs.Prelude.{◌≡◌};
    ghost use Rattle.chyp_names.specs.declared.elab_error.ElabError.{ElabError};
    ghost use Rattle.chyp_names.specs.declared.elab_error.ElabError.TheVariants.{NoMemory};

    ghost from_gives = { λ _ error. error ≡ NoMemory };

    fn from(_: NoMemory) -> ElabError {
        ElabError::NoMemory
    }
}
