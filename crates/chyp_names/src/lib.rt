//! What statements mean, and what their names stand for then.
//!
//! Where names stand for what they do in its [`Scope`], [`elaborate`] gives the terms and steps of a
//! statement, or refuses it with the verdict of the first point that holds: its name is bound already,
//! a name that it uses is at fault, it is too big, its terms have no types that agree, or it rests on a
//! rewrite that is not proved. A statement that is too big is refused before any of its terms is made.
//! [`bind`] binds the name of a statement that has its verdict, whether it was refused or not, to its
//! terms, which it shares, and [`bind_owned`] does so and is handed the terms.
#![tactic(auto)]

mod binding;
mod body;
mod elab_error;
mod elaboration;
mod imports;
mod limits;
mod naming;
mod steps;
mod terms;

pub use binding::{bind, bind_owned};
pub use body::Body;
pub use chyp_env::{
    ChunkView, Entry, Env, ImportState, KnownTerm, KnownTerms, Meaning, Origin, Scope,
};
pub use elab_error::ElabError;
pub use elaboration::elaborate;
