// What the n-th rewrite of a term is.
use chyp_term::Term;

/// The n-th rewrite of a term by a rule, or why there is none.
#[derive(Debug, Drop)]
pub enum Nth {
    /// The left side of the rule has too many placements in the term for it to be rewritten.
    TooWide {
        /// How many there are, or 2^64 - 1 where there are more.
        placements: u64,
    },
    /// The left side has no n-th convex occurrence in the term.
    NoSuch {
        /// How many there are.
        count: u64,
    },
    /// The term that would come out passes a limit on terms.
    TooBig,
    /// The term that comes out.
    Rewritten(Term),
}
