// The two sides of an edge.

/// A side of an edge.
#[derive(Clone, Copy, Debug, PartialEq, Eq)]
pub(crate) enum Side {
    /// The wires that it consumes.
    Sources,
    /// The wires that it makes.
    Targets,
}
