// Equations between terms.
use crate::Term;

/// An equation between two terms, typed or not. Contracts see it through `equation_of` of
/// `specs/Equation.antt`, as two morphisms.
#[derive(Debug, Drop)]
pub struct Equation {
    /// The side that a rule takes away.
    pub left: Term,
    /// The side that a rule puts in its place.
    pub right: Term,
}
