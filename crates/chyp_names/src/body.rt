// What a statement means.
use chyp_env::KnownTerms;
use chyp_term::StepList;

/// What a statement that nothing refuses means.
#[derive(Debug, Drop)]
pub struct Body {
    /// Its terms, in the order of the text, all of one type. That of a `gen` is the generator; a `show` has none.
    pub terms: KnownTerms,
    /// What the steps of a rewrite rest on, in order, that of a hole last.
    pub steps: StepList,
    /// Whether a step of a rewrite is a hole.
    pub hole: bool,
}
