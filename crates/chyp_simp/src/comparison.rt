// Comparisons of terms by rules.

/// How two terms compare by the same rules, each run as far as it goes.
#[derive(Clone, Copy, Debug, PartialEq, Eq)]
pub enum Comparison {
    /// The monoidal laws give the equation of their normal forms.
    Equal,
    /// The monoidal laws alone don't give it.
    Different,
    /// A run ended at a rule that has too many placements.
    TooWide {
        /// How many there are, or 2^64 - 1 where there are more.
        placements: u64,
    },
    /// A run ended at the limit on rewrites.
    AtLimit,
}
