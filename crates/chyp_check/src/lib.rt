//! The verdict of each statement.
//!
//! [`check_one`] gives the verdict of one statement where it stands: the first token with which it is no
//! sentence, or the first point that refuses it, or else how the steps of a rewrite are judged, up to
//! the first that isn't good. [`check_statement`] gives it with the body of the statement, for a caller
//! who binds its name. [`check_all`] gives the verdicts of all statements of a text, over its
//! [`Modules`]: each module that the text reaches is checked once, behind those that it imports;
//! [`check_main`] gives them where the text and its modules were read before. All count one step a
//! statement. Which verdicts these are is defined in `chyp_verdicts` and `chyp_modules`.
#![tactic(auto)]

mod all;
mod import_state;
mod imports;
mod inputs;
mod modules;
mod node;
mod one;
mod order;
mod project;
mod reading;
mod steps;
mod text;
mod verdicts;

pub use all::{check_all, check_main};
pub use inputs::Inputs;
pub use modules::Modules;
pub use one::{Outcome, check_one, check_statement};
pub use verdicts::Verdicts;

#[cfg(test)]
mod tests;
