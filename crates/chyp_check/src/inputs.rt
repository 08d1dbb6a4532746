// What the verdict of a statement rests on.
use chyp_base::Name;
use chyp_names::{ChunkView, Env, ImportState};

/// A statement where it stands. Contracts see it through `site_at` of `specs/Inputs.antt`.
#[derive(Clone, Copy)]
pub struct Inputs<'a> {
    /// The name of its module, empty for the main text.
    pub module: &'a Name,
    /// Its tokens, and the text of the module.
    pub chunk: &'a ChunkView<'a>,
    /// What names stand for in front of it.
    pub env: &'a Env,
    /// The state of its import.
    pub import: &'a ImportState<'a>,
}
