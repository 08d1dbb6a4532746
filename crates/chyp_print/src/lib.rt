//! The text of a term, which is read back as the term. No command needs it yet.
//!
//! [`print`] writes a term with both kinds of chains flattened, `;` and `*` between their parts, and with
//! parentheses round a composite in a tensor. What it writes, cut into tokens and read by the grammar,
//! stands for the term with its chains halved anew, and for the very term where that was read back from a
//! graph. The names of generators come from any [`Names`]; [`OwnNames`] prints each by its own name, and
//! [`print_term`] by the first name that stands for it in an environment.
#![tactic(auto)]

mod first_names;
mod laws;
mod names;
mod own_names;
mod places;
mod printer;
mod term_text;

pub use laws::printed_terms_are_read_back;
pub use names::Names;
pub use own_names::OwnNames;
pub use printer::print;
pub use term_text::print_term;
