// The terms that trees stand for.
ghost use Rattle.std.specs.Prelude.{◌≡◌, ◌<◌, ◌^◌, [], ◌∷◌, length, map, All, IfOk, IfSome, IfNone};
ghost use Rattle.chyp_term.specs.Derivation.{empty};
ghost use Rattle.chyp_term.specs.Perm.{IsPermutation};
ghost use Rattle.chyp_term.specs.Term.{morphism_of};
ghost use Rattle.chyp_syntax.specs.Term.{tree_of};
ghost use Rattle.chyp_env.specs.Entry.{sense_of};
ghost use Rattle.chyp_env.specs.Expansion.{expansion_in, plain_permutation};
ghost use Rattle.chyp_env.specs.Join.{join_of};
ghost use Rattle.chyp_term.specs.Halving.{halved};
ghost use Rattle.chyp_env.specs.Scope.{term_at, term_of};
ghost use Rattle.chyp_env.specs.Typing.{AllHold, tests_of};

use crate::plain_wires::{PlainWires, permutation};
use crate::{Meaning, Scope};
use chyp_base::{NoMemory, Sorts};
use chyp_syntax::TermAst;
use chyp_term::{Term, copy};
use std::alloc::Global;
use std::rc::Rc;

/// How the parts of a row are joined.
#[derive(Clone, Copy, Debug, PartialEq, Eq)]
pub(crate) enum Join {
    /// One after the other: `s ; t`.
    Then,
    /// Side by side: `s * t`.
    Beside,
}

/// The term that a tree stands for where names stand for what they do in this environment; a name
/// that stands for no term counts as the empty diagram. It is made by recursion as deep as that term.
///
/// # Errors
///
/// `NoMemory` where the term can't be kept.
#[cycle(terms)]
pub(crate) fn expand(
    alloc: Global,
    plain: &PlainWires,
    tree: &TermAst,
    scope: &Scope<'_>,
) -> Result<Term, NoMemory>
    requires { AllHold (tests_of (term_at scope.now) (tree_of tree.now)) }
    ensures { IfOk result (λ term.
        morphism_of term ≡ expansion_in (term_at scope.now) (tree_of tree.now)) }
{
    match tree {
        TermAst::Named(token) => named(alloc, *token, scope),
        TermAst::Wire => plain.wire(),
        TermAst::Empty => plain.none(),
        TermAst::Swap { places, .. } => match places {
            Some(places) => written(alloc, plain, places.as_slice()),
            None => plain.crossing(),
        },
        TermAst::Chain { parts, .. } => { row(alloc, plain, Join::Then, parts.as_slice(), scope) }
        TermAst::Beside(parts) => row(alloc, plain, Join::Beside, parts.as_slice(), scope),
    }
}

// Parts in a row: the first half of them, rounded down, and then the rest.
#[cycle(terms)]
fn row(
    alloc: Global,
    plain: &PlainWires,
    join: Join,
    parts: &[TermAst],
    scope: &Scope<'_>,
) -> Result<Term, NoMemory>
    requires { All (λ part.
        AllHold (tests_of (term_at scope.now) (tree_of part))) parts.now }
    ensures { IfOk result (λ term. morphism_of term ≡ halved (join_of join)
        (map (λ part. expansion_in (term_at scope.now) (tree_of part)) parts.now)) }
{
    match parts {
        [] => no_wires(alloc),
        [part] => expand(alloc, plain, part, scope),
        _ => {
            let half = parts.len() / 2;
            let first = row(alloc, plain, join, &parts[..half], scope)?;
            let rest = row(alloc, plain, join, &parts[half..], scope)?;
            joined(alloc, join, first, rest)
        }
    }
}

// Two terms joined.
fn joined(alloc: Global, join: Join, first: Term, rest: Term) -> Result<Term, NoMemory>
    ensures { IfOk result (λ term. morphism_of term ≡ join_of join (morphism_of first) (morphism_of rest)) }
{
    let first = Rc::new(alloc, first)?;
    let rest = Rc::new(alloc, rest)?;
    match join {
        Join::Then => Ok(Term::Seq(first, rest)),
        Join::Beside => Ok(Term::Par(first, rest)),
    }
}

// The term that the name of this token stands for.
fn named(alloc: Global, token: u32, scope: &Scope<'_>) -> Result<Term, NoMemory>
    ensures { IfOk result (λ term. morphism_of term ≡ term_at scope.now token) }
{
    match scope.entry_at(token) {
        Some(entry) => meant(alloc, &entry.meaning),
        None => no_wires(alloc),
    }
}

// The term of a meaning, empty where it has none.
fn meant(alloc: Global, meaning: &Meaning) -> Result<Term, NoMemory>
    ensures { IfOk result (λ term. morphism_of term ≡ term_of (sense_of meaning.now)) }
{
    match meaning {
        Meaning::Generator(name, shape) => Ok(Term::Gen {
            name: name.share()?,
            dom: shape.dom.share()?,
            cod: shape.cod.share()?,
        }),
        Meaning::Abbrev(term) => copy(term.term()),
        Meaning::Law(_) | Meaning::Unproved | Meaning::Broken => no_wires(alloc),
    }
}

// The empty diagram.
fn no_wires(alloc: Global) -> Result<Term, NoMemory>
    ensures { IfOk result (λ term. morphism_of term ≡ empty) }
{
    permutation(alloc, Sorts::from_vec(Vec::new(alloc)), Vec::new(alloc))
}

// The permutation of plain wires with the places that stand in the text.
fn written(alloc: Global, plain: &PlainWires, places: &[u64]) -> Result<Term, NoMemory>
    requires { IsPermutation (length places.now) places.now }
    ensures { IfOk result (λ term. morphism_of term ≡ plain_permutation places.now) }
{
    match narrowed(alloc, places)? {
        Some(narrow) => {
            let sorts = plain.wires(alloc, narrow.len())?;
            permutation(alloc, sorts, narrow)
        }
        None => unreachable!(),
    }
}

/// Places that stand in the text, as places of wires; None only where they are no permutation.
pub(crate) fn narrowed(alloc: Global, places: &[u64]) -> Result<Option<Vec<u32>>, NoMemory>
    ensures value { IfOk result (λ narrow. IfSome narrow (λ narrow. narrow.items ≡ places.now)) }
    ensures none { IfOk result (λ narrow. IfNone narrow (¬ IsPermutation (length places.now) places.now)) }
{
    let mut narrow = Vec::with_capacity(alloc, places.len())?;
    for place in places {
        if *place >= places.len() as u64 {
            return Ok(None);
        }
        let Ok(place) = u32::try_from(*place) else {
            return Err(NoMemory);
        };
        narrow.push(place)?;
    }
    Ok(Some(narrow))
}
