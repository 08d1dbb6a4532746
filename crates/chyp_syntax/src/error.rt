// What ends a reading of a chunk.
use std::alloc::AllocError;
use thiserror::Error;

/// Why a chunk gives no tree.
#[derive(Clone, Copy, Debug, PartialEq, Eq, Error)]
pub enum ParseError {
    /// The chunk is no sentence. The tokens before this one begin a sentence, and with this one
    /// they begin none; or they are all the tokens of the chunk.
    #[error("no sentence goes on with token {token}")]
    Syntax { token: u32 },
    /// A growth was refused.
    #[error("no memory")]
    NoMemory,
}

impl From<AllocError> for ParseError {
    ghost use Rattle.std.specs.Prelude.{◌≡◌};
    ghost use Rattle.chyp_syntax.specs.declared.error.ParseError.{ParseError};
    ghost use Rattle.chyp_syntax.specs.declared.error.ParseError.TheVariants.{NoMemory};

    ghost from_gives = { λ _ error. error ≡ NoMemory };

    fn from(_: AllocError) -> ParseError {
        ParseError::NoMemory
    }
}
