//! What names stand for, and what the tree of a term stands for where they do.
//!
//! An [`Env`] holds what the names of a module stand for, in the order of binding, each name once.
//! Every term in it is typed and within the limits on one term. A [`KnownTerm`] is such a term with its
//! type and its measures, made once and shared from then on. A [`ChunkView`] is a statement that is lent.
//! Behind the statements that have made an environment, [`sizes_of`] tells how big the term of a tree
//! will be, and [`KnownTerm::of_tree`] makes it, or tells the first token that shows that it has no type.
#![tactic(auto)]

mod chunk_view;
mod entries;
mod entry;
mod env;
mod expansion;
mod import;
mod import_state;
mod known_term;
mod known_terms;
mod meaning;
mod origin;
mod plain_wires;
mod scope;
mod sizes;
mod spelling;
mod typing;

pub use chunk_view::ChunkView;
pub use entry::Entry;
pub use env::Env;
pub use import::first_clash;
pub use import_state::ImportState;
pub use known_term::KnownTerm;
pub use known_terms::KnownTerms;
pub use meaning::Meaning;
pub use origin::Origin;
pub use plain_wires::PlainWires;
pub use scope::Scope;
pub use sizes::{Sizes, sizes_of, sizes_of_generator};
pub use typing::TypeFault;
