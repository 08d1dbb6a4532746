// Want of memory, as an error.
use std::alloc::{AllocError, AllocFailed};
use thiserror::Error;

/// A growth was refused: there is no memory for it.
///
/// It says nothing of any input. `?` makes it from the errors of std's allocating calls.
#[derive(Clone, Copy, Debug, PartialEq, Eq, Error)]
#[error("no memory")]
pub struct NoMemory;

impl From<AllocError> for NoMemory {
    fn from(_: AllocError) -> Self {
        NoMemory
    }
}

impl<T: Drop> From<AllocFailed<T>> for NoMemory {
    fn from(_: AllocFailed<T>) -> Self {
        NoMemory
    }
}
