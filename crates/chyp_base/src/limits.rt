// What no input may pass.

/// The most bytes that a text may have: 1 MiB.
pub const MAX_TEXT_LEN: usize = 1_048_576;

/// The most bytes that a library reads of a text: one more than it may have, to tell that the limit is passed.
pub(crate) const MOST_READ: usize = MAX_TEXT_LEN + 1;
