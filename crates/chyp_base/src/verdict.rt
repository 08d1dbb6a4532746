// What a statement gets.
ghost use Rattle.std.specs.Prelude.{◌≡◌};
ghost use Rattle.chyp_base.specs.Verdict.{is_good, token_of};

use crate::Name;

/// What the checker says of a statement.
///
/// A `token` is the number of a token within its statement, from 0, and a `step` is the number of a
/// step of a rewrite, from 1.
#[derive(Clone, Debug, PartialEq, Eq, Drop)]
pub enum Verdict {
    /// The statement is no rewrite, and nothing refuses it.
    Accepted,
    /// Each step of a rewrite holds.
    Proved,
    /// A rewrite has no step yet, or its last goal is still open, and each step before it holds.
    Unfinished,
    /// The statement is no sentence of the language. This is the first token that shows it, or the
    /// number of tokens where only the end does.
    Syntax { token: u32 },
    /// The name that the statement would bind is bound already.
    Declared { token: u32 },
    /// The library has no such module.
    NoModule { token: u32 },
    /// The module imports itself, directly or through others.
    Cycle { token: u32 },
    /// The import would bind this name, which stands for something else already.
    Clash { name: Name },
    /// The token names nothing.
    Unknown { token: u32 },
    /// The token names a `gen`, `let` or `rule` that was refused.
    Broken { token: u32 },
    /// The token names something of another kind than its place wants.
    Kind { token: u32 },
    /// A number of ports, a term, or the terms of the statement together pass their limit.
    TooBig,
    /// Domains or codomains don't agree at the token, or its places are no permutation.
    Mistyped { token: u32 },
    /// The token names a rewrite that is not proved.
    Unproved { token: u32 },
    /// The monoidal laws don't give the equation of the step.
    Differs { step: u32 },
    /// The rule, in any context, doesn't rewrite the term of the step to its goal; the term has this
    /// many convex occurrences of the rule's left side.
    NoRewrite { step: u32, occurrences: u64 },
    /// There are too many placements of the rule's left side in the term of the step: this many.
    TooWide { step: u32, placements: u64 },
    /// The simplified term and the simplified goal of the step differ.
    SimpDiffers { step: u32 },
    /// Simplification of the term or the goal of the step reached its limit of rewrites.
    SimpLimit { step: u32 },
}

impl Verdict {
    /// Whether the statement counts as good: it was accepted or proved.
    pub fn is_good(&self) -> bool
        ensures { result ≡ is_good self.now }
    {
        matches!(self, Verdict::Accepted | Verdict::Proved)
    }

    /// The number of the token that the verdict names within its statement, from 0; None where it names
    /// none.
    pub fn token(&self) -> Option<u32>
        ensures { result ≡ token_of self.now }
    {
        match self {
            Verdict::Syntax { token }
            | Verdict::Declared { token }
            | Verdict::NoModule { token }
            | Verdict::Cycle { token }
            | Verdict::Unknown { token }
            | Verdict::Broken { token }
            | Verdict::Kind { token }
            | Verdict::Mistyped { token }
            | Verdict::Unproved { token } => Some(*token),
            _ => None,
        }
    }
}
