// The trees of a rewrite's steps.
use crate::TermAst;
use sqlite_items::Items;

/// The name of a rule, used from left to right or, behind a `-`, from right to left.
#[derive(Clone, Copy, Debug, PartialEq, Eq)]
pub struct SignedAst {
    /// A `-` stands in front of the name.
    pub minus: bool,
    /// The token of the name.
    pub name: u32,
}

/// Rules, in order.
pub type SignedAsts = Items<SignedAst>;

/// What a step rests on.
#[derive(Debug, Drop)]
pub enum ReasonAst {
    /// The monoidal laws alone.
    Plain,
    /// `by` one rule.
    Rule(SignedAst),
    /// `by simp`, which uses these rules as often as they apply.
    Simp(SignedAsts),
}

/// A step of a rewrite: it leads from the term before it to its goal.
#[derive(Debug, Drop)]
pub struct StepAst {
    /// The token of the `=` in front of it.
    pub equals: u32,
    /// The term that it leads to, or None for a hole.
    pub goal: Option<TermAst>,
    /// What it rests on.
    pub reason: ReasonAst,
}

/// Steps, in order.
pub type StepAsts = Items<StepAst>;
