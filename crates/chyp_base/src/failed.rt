// A failure of the outside, as an error.
use thiserror::Error;

/// An outside object failed. Its count of faults rose in the call that answers this.
#[derive(Clone, Copy, Debug, PartialEq, Eq, Error)]
#[error("an outside object failed")]
pub struct Failed;
