// How big the terms are that trees stand for.
ghost use Rattle.std.specs.Prelude.{◌≡◌, ℕ, List, [], length, map};
ghost use Rattle.chyp_base.specs.declared.sort.Sort.{Sort};
ghost use Rattle.chyp_term.specs.Morphism.{Morphism, generator as a_generator, permutation};
ghost use Rattle.chyp_syntax.specs.Term.{tree_of};
ghost use Rattle.chyp_env.specs.Entry.{sense_of};
ghost use Rattle.chyp_env.specs.Expansion.{expansion_in};
ghost use Rattle.chyp_env.specs.Join.{join_of};
ghost use Rattle.chyp_term.specs.Halving.{halved};
ghost use Rattle.chyp_env.specs.Sizes.{AreSizes};
ghost use Rattle.chyp_env.specs.Scope.{term_at, term_of};

use crate::expansion::Join;
use crate::{Meaning, Scope};
use chyp_syntax::TermAst;
use chyp_term::Shape;

/// The measures of a term, each 2^64 - 1 where it is greater.
#[derive(Clone, Copy, Debug, PartialEq, Eq)]
pub struct Sizes {
    /// Its size.
    pub size: u64,
    /// Its depth.
    pub depth: u64,
    /// The number of its generators.
    pub generators: u64,
}

/// The measures of the term that a tree stands for, which isn't made. It takes no memory, and goes by
/// recursion as deep as that term.
#[cycle(sizes)]
pub fn sizes_of(tree: &TermAst, scope: &Scope<'_>) -> Sizes
    ensures { AreSizes result (expansion_in (term_at scope.now) (tree_of tree.now)) }
{
    match tree {
        TermAst::Named(token) => sizes_of_name(*token, scope),
        TermAst::Wire => sizes_of_permutation(1),
        TermAst::Empty => sizes_of_permutation(0),
        TermAst::Swap { places, .. } => match places {
            Some(places) => sizes_of_permutation(places.len()),
            None => sizes_of_permutation(2),
        },
        TermAst::Chain { parts, .. } => sizes_of_row(parts.as_slice(), scope),
        TermAst::Beside(parts) => sizes_of_row(parts.as_slice(), scope),
    }
}

// The measures of parts in a row, however they are joined: the first half of them, rounded down, and
// then the rest.
#[cycle(sizes)]
fn sizes_of_row(parts: &[TermAst], scope: &Scope<'_>) -> Sizes
    ensures { (join : Join) → AreSizes result (halved (join_of join)
        (map (λ part. expansion_in (term_at scope.now) (tree_of part)) parts.now)) }
{
    match parts {
        [] => sizes_of_permutation(0),
        [part] => sizes_of(part, scope),
        _ => {
            let half = parts.len() / 2;
            let first = sizes_of_row(&parts[..half], scope);
            let rest = sizes_of_row(&parts[half..], scope);
            joined_sizes(first, rest)
        }
    }
}

// The measures of two joined terms with these measures.
fn joined_sizes(first: Sizes, rest: Sizes) -> Sizes
    ensures { (join : Join) (s t : Morphism) → AreSizes first s → AreSizes rest t → AreSizes result (join_of join s t) }
{
    Sizes {
        size: first.size.saturating_add(rest.size).saturating_add(1),
        depth: first.depth.max(rest.depth).saturating_add(1),
        generators: first.generators.saturating_add(rest.generators),
    }
}

// The measures of a permutation with so many places.
fn sizes_of_permutation(count: usize) -> Sizes
    ensures { (sorts : List Sort) (places : List ℕ) → length places ≡ count → AreSizes result (permutation sorts places) }
{
    Sizes {
        size: (count as u64).saturating_add(1),
        depth: 1,
        generators: 0,
    }
}

// The measures of the term that the name of this token stands for.
fn sizes_of_name(token: u32, scope: &Scope<'_>) -> Sizes
    ensures { AreSizes result (term_at scope.now token) }
{
    match scope.entry_at(token) {
        Some(entry) => sizes_of_meaning(&entry.meaning),
        None => sizes_of_permutation(0),
    }
}

// The measures of the term of a meaning, empty where it has none.
fn sizes_of_meaning(meaning: &Meaning) -> Sizes
    ensures { AreSizes result (term_of (sense_of meaning.now)) }
{
    match meaning {
        Meaning::Generator(_, shape) => sizes_of_generator(shape),
        Meaning::Abbrev(term) => term.sizes(),
        Meaning::Law(_) | Meaning::Unproved | Meaning::Broken => sizes_of_permutation(0),
    }
}

/// The measures of a generator of this type. It takes no memory.
pub fn sizes_of_generator(shape: &Shape) -> Sizes
    ensures { (name : List ℕ) → AreSizes result (a_generator name shape.now.dom shape.now.cod) }
{
    Sizes {
        size: 1u64
            .saturating_add(shape.dom.as_slice().len() as u64)
            .saturating_add(shape.cod.as_slice().len() as u64),
        depth: 1,
        generators: 1,
    }
}
