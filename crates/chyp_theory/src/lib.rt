//! What the laws of symmetric monoidal categories prove, and what they can't: law functions, whose
//! bodies are empty.
//!
//! `derivations_are_equations` says that terms which any equations derive are typed and have one type.
//! `types_are_decided` says that a term has a type or has none. `wires_are_permutations` says, over all
//! typed terms without generators, that each is a permutation of its domain and equals it by the laws,
//! and that two are equal by the laws exactly where their domains and permutations are;
//! `wires_are_decided` says so for two given terms. `proofs/` has more, for the crates above: terms are
//! equal by the laws exactly where they run alike on wires of any names (`Soundness`, `Completeness`).
#![tactic(auto)]

ghost use Rattle.chyp_term.specs.Morphism.{IsTyped};
ghost use Rattle.chyp_term.specs.Term.{morphism_of};
ghost use Rattle.chyp_term.specs.Wiring.{IsWires};
ghost use Rattle.chyp_theory.specs.Laws.{DerivationsAreEquations, IsDecidedByWiring, PermutationsAreDecided, SortsAreDecided, TypingIsDecided, WiresArePermutations, WiringDecidesWires, WiringsPermute};

use chyp_term::Term;

/// Terms that are derived, from any equations, are typed and have one type.
pub fn derivations_are_equations()
    ensures { DerivationsAreEquations }
{}

/// A term has a type or it has none, two lists of sorts are the same or they are not, and a list of
/// numbers is a permutation or it is none.
pub fn types_are_decided()
    ensures typing { TypingIsDecided }
    ensures sorts { SortsAreDecided }
    ensures permutations { PermutationsAreDecided }
{}

/// Over all typed terms of wires: each is a permutation of its domain and equals it by the laws,
/// and two of them are equal by the laws exactly where their domains and permutations are. This is
/// coherence for symmetric strict monoidal categories (compare Mac Lane, Categories for the Working
/// Mathematician, XI.1).
pub fn wires_are_permutations()
    ensures permute { WiringsPermute }
    ensures equal { WiresArePermutations }
    ensures decided { WiringDecidesWires }
{}

/// For two given typed terms of wires: equal by the laws exactly where their domains and
/// permutations are.
pub fn wires_are_decided(s: &Term, t: &Term)
    requires left_wires { IsWires (morphism_of s.now) }
    requires right_wires { IsWires (morphism_of t.now) }
    requires left_typed { IsTyped (morphism_of s.now) }
    requires right_typed { IsTyped (morphism_of t.now) }
    ensures { IsDecidedByWiring (morphism_of s.now) (morphism_of t.now) }
{}
