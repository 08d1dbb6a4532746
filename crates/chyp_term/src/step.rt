// Steps of rewrites.
use crate::{Equation, Equations};

/// Why a term is said to equal the next one. A rule that is used backwards stands here with its sides
/// exchanged. Contracts see a step through `reason_of` of `specs/Step.antt`.
#[derive(Debug, Drop)]
pub enum Step {
    /// By the monoidal laws alone.
    Refl,
    /// By this equation, applied once in a context.
    ByRule(Equation),
    /// By these equations, which take both terms to one normal form.
    Simp(Equations),
}
