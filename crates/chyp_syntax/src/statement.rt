// The trees of statements.
use crate::{StepAsts, TermAst};

/// A statement as it is written. A `u32` is the number of a token within the chunk.
#[derive(Debug, Drop)]
pub enum Ast {
    /// A generator: the token of its name, and how many wires go in and come out.
    GenDecl {
        name: u32,
        dom: u64,
        cod: u64,
    },
    /// A name for a term: the token of the name, and the term.
    LetDecl {
        name: u32,
        term: TermAst,
    },
    /// A rule: the token of its name, its two sides, and the token of the `=` between them.
    RuleDecl {
        name: u32,
        left: TermAst,
        equals: u32,
        right: TermAst,
    },
    /// A rewrite: the token of its name, its first term, and the steps from there.
    RewriteDecl {
        name: u32,
        first: TermAst,
        steps: StepAsts,
    },
    /// An import: the token of the module's name, and that of the prefix where there is one.
    ImportDecl {
        module: u32,
        prefix: Option<u32>,
    },
    /// A statement to be shown, by the token of its name.
    ShowDecl {
        name: u32,
    },
}
