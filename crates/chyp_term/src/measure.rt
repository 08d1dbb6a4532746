// How big terms are.
ghost use Rattle.std.specs.Prelude.{◌≡◌, ◌-◌, ◌^◌, min};
ghost use Rattle.chyp_term.specs.Measure.{size_of, depth_of, generators_of};
ghost use Rattle.chyp_term.specs.Term.{morphism_of};

use crate::Term;

/// The size of a term, or 2^64 - 1 where it is greater. A generator counts 1 and each of its ports 1,
/// a permutation 1 and each of its places 1, and each composition and tensor 1. Like the two measures
/// below it takes no memory, and goes by recursion as deep as the term.
pub fn size(term: &Term) -> u64
    ensures { result ≡ min (size_of (morphism_of term.now)) (2 ^ 64 - 1) }
{
    match term {
        Term::Gen { dom, cod, .. } => 1u64
            .saturating_add(dom.as_slice().len() as u64)
            .saturating_add(cod.as_slice().len() as u64),
        Term::Perm { perm, .. } => 1u64.saturating_add(perm.places().len() as u64),
        Term::Seq(first, second) => 1u64
            .saturating_add(size(first))
            .saturating_add(size(second)),
        Term::Par(left, right) => 1u64.saturating_add(size(left)).saturating_add(size(right)),
    }
}

/// The depth of a term, or 2^64 - 1 where it is greater: 1 for a generator or a permutation, and else 1
/// more than the deeper of the two parts.
pub fn depth(term: &Term) -> u64
    ensures { result ≡ min (depth_of (morphism_of term.now)) (2 ^ 64 - 1) }
{
    match term {
        Term::Gen { .. } | Term::Perm { .. } => 1,
        Term::Seq(first, second) => depth(first).max(depth(second)).saturating_add(1),
        Term::Par(left, right) => depth(left).max(depth(right)).saturating_add(1),
    }
}

/// How many generators stand in a term, or 2^64 - 1 where there are more.
pub fn gens(term: &Term) -> u64
    ensures { result ≡ min (generators_of (morphism_of term.now)) (2 ^ 64 - 1) }
{
    match term {
        Term::Gen { .. } => 1,
        Term::Perm { .. } => 0,
        Term::Seq(first, second) => gens(first).saturating_add(gens(second)),
        Term::Par(left, right) => gens(left).saturating_add(gens(right)),
    }
}
