// What a library says of a name.

/// Whether a library has a module of a name.
#[derive(Clone, Copy, Debug, PartialEq, Eq)]
pub enum Found {
    /// It has one, and its text was read.
    There,
    /// It has none.
    Absent,
}
