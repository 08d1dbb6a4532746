// What statements import.
use crate::Env;

/// What a statement imports. Contracts see it through `imported_of` of `specs/ImportState.antt`.
#[derive(Clone, Copy)]
pub enum ImportState<'a> {
    /// It is no import, or nothing is known of its module.
    NotImport,
    /// There is no module of that name.
    Absent,
    /// The module reaches itself.
    OnCycle,
    /// The module is there, and its statements make this environment.
    Module(&'a Env),
}
