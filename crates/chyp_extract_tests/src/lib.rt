//! The tests of `chyp_extractor` and `chyp_print`: `words` has the terms that they are made of and those
//! that come back in words, `reading` reads terms from texts, `names` tells names of the language, and
//! `extracting`, `printing` and `environments` have the tables.
//!
//! They have a crate of their own, as a crate with tests is proved twice, with them and without. It has
//! no other code.
#![tactic(auto)]

#[cfg(test)]
mod environments;
#[cfg(test)]
mod extracting;
#[cfg(test)]
mod names;
#[cfg(test)]
mod printing;
#[cfg(test)]
mod reading;
#[cfg(test)]
mod words;
