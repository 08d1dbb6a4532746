//! Tests of the crates about pictures: `chyp_picture` and `chyp_svg`, with a module for each topic, the
//! pictures that they share in `pictures`, and whether one that was made by hand is whole in `whole`.
//!
//! They have a crate of their own, as a crate with tests is proved twice, with them and without. It has
//! no other code.
#![tactic(auto)]

#[cfg(test)]
mod crossing;
#[cfg(test)]
mod pictures;
#[cfg(test)]
mod svgs;
#[cfg(test)]
mod whole;
