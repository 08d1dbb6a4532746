// How the parts of a row are joined.

/// How the parts of a row are joined.
#[derive(Clone, Copy, Debug, PartialEq, Eq)]
pub(crate) enum Join {
    /// One after the other: `s ; t`.
    Then,
    /// Side by side: `s * t`.
    Beside,
}
