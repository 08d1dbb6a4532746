// Judgements.

/// What is known of a step from one term to another.
#[derive(Clone, Copy, Debug, PartialEq, Eq)]
pub enum Judged {
    /// It leads from the one to the other.
    Good,
    /// The monoidal laws alone don't give the equation of the two terms.
    Differs,
    /// The rule rewrites the first term to the other one in no context.
    NoRewrite {
        /// How many convex occurrences the left side of the rule has in the first term.
        occurrences: u64,
    },
    /// The left side of a rule has too many placements in a term, or in a graph to which rules lead it,
    /// for the step to be judged.
    TooWide {
        /// How many there are, or 2^64 - 1 where there are more.
        placements: u64,
    },
    /// The rules lead both terms to normal forms, but the monoidal laws alone don't give the equation
    /// of these.
    SimpDiffers,
    /// The rules lead a term on past the limit on rewrites.
    SimpLimit,
}
