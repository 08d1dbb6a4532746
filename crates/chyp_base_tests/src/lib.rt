//! The tests of `chyp_base`: `values` has names, sorts, texts, verdicts, statuses and steps, `memory` the
//! outside in memory over failing calls, and `system` the outside over std.
//!
//! They have a crate of their own, as a crate with tests is proved twice, with them and without. It has
//! no other code.
#![tactic(auto)]

#[cfg(test)]
mod memory;
#[cfg(test)]
mod system;
#[cfg(test)]
mod values;
