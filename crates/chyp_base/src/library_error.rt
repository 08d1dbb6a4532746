// Why a library reads nothing.
use thiserror::Error;

/// Why a library gave no answer for a name.
#[derive(Clone, Copy, Debug, PartialEq, Eq, Error)]
pub enum LibraryError {
    /// The library failed. Its count of faults rose in this call.
    #[error("the library failed")]
    Failed,
    /// There was no memory for the text. Its count of faults stayed.
    #[error("no memory")]
    NoMemory,
}
