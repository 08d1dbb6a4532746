// The types of the terms that trees stand for.
ghost use Rattle.std.specs.Prelude.{◌≡◌, ℕ, List, [], length, map, IfOk, IfErr, IsOk, Err, slice_index};
ghost use Rattle.chyp_term.specs.Derivation.{empty};
ghost use Rattle.chyp_term.specs.Morphism.{dom, cod};
ghost use Rattle.chyp_syntax.specs.Term.{tree_of, chain, beside as tensor, terms_of};
ghost use Rattle.chyp_term.specs.Perm.{IsPermutation};
ghost use Rattle.chyp_env.specs.Entry.{sense_of};
ghost use Rattle.chyp_env.specs.Expansion.{expansion_in, plain_permutation};
ghost use Rattle.chyp_env.specs.Shape.{IsShape};
ghost use Rattle.chyp_env.specs.Scope.{term_at, term_of};
ghost use Rattle.chyp_env.specs.Typing.{AllHold, FailsFirst, tests_of};

use crate::expansion::narrowed;
use crate::known_term::share_shape;
use crate::plain_wires::PlainWires;
use crate::{Meaning, Scope};
use chyp_base::{NoMemory, Sorts};
use chyp_syntax::TermAst;
use chyp_term::{Perm, Places, Shape};
use std::alloc::Global;

/// Why a tree has no type.
#[derive(Clone, Copy, Debug, PartialEq, Eq)]
pub enum TypeFault {
    /// The first test that fails is at this token.
    Fails { token: u32 },
    /// There was no memory for the type.
    NoMemory,
}

impl From<NoMemory> for TypeFault {
    ghost use Rattle.std.specs.Prelude.{◌≡◌};
    ghost use Rattle.chyp_env.specs.declared.typing.TypeFault.{TypeFault};
    ghost use Rattle.chyp_env.specs.declared.typing.TypeFault.TheVariants.{NoMemory};

    ghost from_gives = { λ _ error. error ≡ NoMemory };

    fn from(_: NoMemory) -> TypeFault {
        TypeFault::NoMemory
    }
}

/// The type of the term that a tree stands for, which isn't made. It goes by recursion as deep as the
/// tree.
///
/// # Errors
///
/// `Fails` exactly where a test of the tree fails, with the token of the first such test: a `sw` whose
/// places are no permutation, or a `;` in front of a part whose domain is not the codomain of the part
/// before it. `NoMemory` where the lists of sorts can't be kept.
#[cycle(shapes)]
pub(crate) fn shape_of_tree(
    alloc: Global,
    plain: &PlainWires,
    tree: &TermAst,
    scope: &Scope<'_>,
) -> Result<Shape, TypeFault>
    ensures holds { IsOk result → AllHold (tests_of (term_at scope.now) (tree_of tree.now)) }
    ensures shape { IfOk result (λ shape.
        IsShape shape (expansion_in (term_at scope.now) (tree_of tree.now))) }
    ensures fails { (token : ℕ) → result ≡ Err (TypeFault.Fails token) →
        FailsFirst (tests_of (term_at scope.now) (tree_of tree.now)) token }
{
    match tree {
        TermAst::Named(token) => Ok(shape_of_name(alloc, *token, scope)?),
        TermAst::Wire => Ok(plain_shape(alloc, plain, 1)?),
        TermAst::Empty => Ok(no_wires(alloc)),
        TermAst::Swap { token, places } => match places {
            Some(places) => shape_of_swap(alloc, plain, *token, places.as_slice()),
            None => Ok(plain_shape(alloc, plain, 2)?),
        },
        TermAst::Chain { parts, semis } => {
            shape_of_chain(alloc, plain, parts.as_slice(), semis.as_slice(), scope)
        }
        TermAst::Beside(parts) => shape_of_tensor(alloc, plain, parts.as_slice(), scope),
    }
}

// The type of a chain of these parts, with these tokens of its `;`.
#[cycle(shapes)]
fn shape_of_chain(
    alloc: Global,
    plain: &PlainWires,
    parts: &[TermAst],
    semis: &[u32],
    scope: &Scope<'_>,
) -> Result<Shape, TypeFault>
    ensures holds { IsOk result → AllHold
        (tests_of (term_at scope.now) (chain (terms_of (map tree_of parts.now)) semis.now)) }
    ensures shape { IfOk result (λ shape.
        IsShape shape (expansion_in (term_at scope.now) (chain (terms_of (map tree_of parts.now)) semis.now))) }
    ensures fails { (token : ℕ) → result ≡ Err (TypeFault.Fails token) →
        FailsFirst (tests_of (term_at scope.now) (chain (terms_of (map tree_of parts.now)) semis.now)) token }
{
    let Some(first) = parts.first() else {
        return Ok(no_wires(alloc));
    };
    let mut shape = shape_of_tree(alloc, plain, first, scope)?;
    for i in 0..parts.len() - 1 {
        let next = shape_of_tree(alloc, plain, &parts[i + 1], scope)?;
        let token = token_at(semis, i);
        shape = composed(shape, next, token)?;
    }
    Ok(shape)
}

// The type of a tensor of these parts.
#[cycle(shapes)]
fn shape_of_tensor(
    alloc: Global,
    plain: &PlainWires,
    parts: &[TermAst],
    scope: &Scope<'_>,
) -> Result<Shape, TypeFault>
    ensures holds { IsOk result → AllHold
        (tests_of (term_at scope.now) (tensor (terms_of (map tree_of parts.now)))) }
    ensures shape { IfOk result (λ shape.
        IsShape shape (expansion_in (term_at scope.now) (tensor (terms_of (map tree_of parts.now))))) }
    ensures fails { (token : ℕ) → result ≡ Err (TypeFault.Fails token) →
        FailsFirst (tests_of (term_at scope.now) (tensor (terms_of (map tree_of parts.now)))) token }
{
    let mut dom = Sorts::from_vec(Vec::new(alloc));
    let mut cod = Sorts::from_vec(Vec::new(alloc));
    for part in parts {
        let shape = shape_of_tree(alloc, plain, part, scope)?;
        dom = dom.beside(&shape.dom)?;
        cod = cod.beside(&shape.cod)?;
    }
    Ok(Shape { dom, cod })
}

// The token of this number, 0 where there is none.
fn token_at(tokens: &[u32], number: usize) -> u32
    ensures { result ≡ slice_index tokens.now number }
{
    match tokens.get(number) {
        Some(token) => *token,
        None => 0,
    }
}

// The type of a term of the first type and then one of the next, at the `;` of this token.
fn composed(first: Shape, next: Shape, token: u32) -> Result<Shape, TypeFault>
    ensures meets { IsOk result → first.cod ≡ next.dom }
    ensures dom { IfOk result (λ shape. shape.dom ≡ first.dom) }
    ensures cod { IfOk result (λ shape. shape.cod ≡ next.cod) }
    ensures fails { IfErr result (λ fault. (fault ≡ TypeFault.Fails token) × ¬ (first.cod ≡ next.dom)) }
{
    if first.cod == next.dom {
        Ok(Shape {
            dom: first.dom,
            cod: next.cod,
        })
    } else {
        Err(TypeFault::Fails { token })
    }
}

// The type of a permutation of plain wires with the places that stand behind this token.
fn shape_of_swap(
    alloc: Global,
    plain: &PlainWires,
    token: u32,
    places: &[u64],
) -> Result<Shape, TypeFault>
    ensures permutes { IsOk result → IsPermutation (length places.now) places.now }
    ensures shape { IfOk result (λ shape. IsShape shape (plain_permutation places.now)) }
    ensures fails { (at : ℕ) → result ≡ Err (TypeFault.Fails at) → (at ≡ token) × ¬ IsPermutation (length places.now) places.now }
{
    let Some(narrow) = narrowed(alloc, places)? else {
        return Err(TypeFault::Fails { token });
    };
    if Perm::new(Places::from_vec(narrow)).is_none() {
        return Err(TypeFault::Fails { token });
    }
    Ok(plain_shape(alloc, plain, places.len())?)
}

// The type of a permutation of so many plain wires.
fn plain_shape(alloc: Global, plain: &PlainWires, count: usize) -> Result<Shape, NoMemory>
    ensures { IfOk result (λ shape. (places : List ℕ) → length places ≡ count → IsPermutation (length places) places
        → IsShape shape (plain_permutation places)) }
{
    let dom = plain.wires(alloc, count)?;
    let cod = dom.share()?;
    Ok(Shape { dom, cod })
}

// The type of the term that the name of this token stands for.
fn shape_of_name(alloc: Global, token: u32, scope: &Scope<'_>) -> Result<Shape, NoMemory>
    ensures { IfOk result (λ shape. IsShape shape (term_at scope.now token)) }
{
    match scope.entry_at(token) {
        Some(entry) => shape_of_meaning(alloc, &entry.meaning),
        None => Ok(no_wires(alloc)),
    }
}

// The type of the term of a meaning, empty where it has none.
fn shape_of_meaning(alloc: Global, meaning: &Meaning) -> Result<Shape, NoMemory>
    ensures { IfOk result (λ shape. IsShape shape (term_of (sense_of meaning.now))) }
{
    match meaning {
        Meaning::Generator(_, shape) => share_shape(shape),
        Meaning::Abbrev(term) => share_shape(term.shape()),
        Meaning::Law(_) | Meaning::Unproved | Meaning::Broken => Ok(no_wires(alloc)),
    }
}

// The type of the empty diagram.
fn no_wires(alloc: Global) -> Shape
    ensures { IsShape result empty }
{
    Shape {
        dom: Sorts::from_vec(Vec::new(alloc)),
        cod: Sorts::from_vec(Vec::new(alloc)),
    }
}
