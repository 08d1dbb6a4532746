// The types of terms.
ghost use Rattle.std.specs.Prelude.{ℕ, ◌≡◌, ◌<◌, ◌++◌, IfOk, IsOk, IsErr, IsErrOf, length, slice_index};
ghost use Rattle.chyp_term.specs.Morphism.{IsTyped, dom, cod};
ghost use Rattle.chyp_term.specs.Perm.{IsPermutation, permuted};
ghost use Rattle.chyp_term.specs.Term.{morphism_of};

use crate::{Perm, ShapeError, Term};
use chyp_base::{NoMemory, Sort, Sorts};
use std::alloc::Global;

/// The type of a term: its domain and its codomain.
#[derive(Debug, Drop)]
pub struct Shape {
    /// The sorts of what goes in.
    pub dom: Sorts,
    /// The sorts of what comes out.
    pub cod: Sorts,
}

/// The type of a term, as morphisms of a coloured PROP are typed (Mac Lane, Categories for the
/// Working Mathematician, XI). It is found from the leaves up, by recursion as deep as the term.
///
/// # Errors
///
/// `Clash` exactly where the term is not well typed: somewhere in it a permutation has more or fewer
/// places than sorts, or in a composition the codomain of the first part is not the domain of the
/// second. `NoMemory` where the lists of sorts can't be kept.
pub fn shape_of(alloc: Global, term: &Term) -> Result<Shape, ShapeError>
    ensures typed { IsOk result → IsTyped (morphism_of term.now) }
    ensures dom { IfOk result (λ shape. shape.dom ≡ dom (morphism_of term.now)) }
    ensures cod { IfOk result (λ shape. shape.cod ≡ cod (morphism_of term.now)) }
    ensures clash { IsErrOf result ShapeError.Clash → ¬ IsTyped (morphism_of term.now) }
{
    match term {
        Term::Gen { dom, cod, .. } => Ok(Shape {
            dom: dom.share()?,
            cod: cod.share()?,
        }),
        Term::Perm { sorts, perm } => shape_of_permutation(alloc, sorts, perm),
        Term::Seq(first, second) => {
            let first = shape_of(alloc, first)?;
            let second = shape_of(alloc, second)?;
            composed(first, second)
        }
        Term::Par(left, right) => {
            let left = shape_of(alloc, left)?;
            let right = shape_of(alloc, right)?;
            Ok(Shape {
                dom: left.dom.beside(&right.dom)?,
                cod: left.cod.beside(&right.cod)?,
            })
        }
    }
}

/// The type of a term of the first type and then one of the second; `Clash` exactly where they do not
/// meet.
fn composed(first: Shape, second: Shape) -> Result<Shape, ShapeError>
    ensures meets { IsOk result → first.cod ≡ second.dom }
    ensures dom { IfOk result (λ shape. shape.dom ≡ first.dom) }
    ensures cod { IfOk result (λ shape. shape.cod ≡ second.cod) }
    ensures clash { IsErr result → ¬ (first.cod ≡ second.dom) }
{
    if first.cod == second.dom {
        Ok(Shape {
            dom: first.dom,
            cod: second.cod,
        })
    } else {
        Err(ShapeError::Clash)
    }
}

/// The type of a permutation of wires of these sorts; `Clash` exactly where it has more or fewer
/// places than there are sorts.
fn shape_of_permutation(alloc: Global, sorts: &Sorts, perm: &Perm) -> Result<Shape, ShapeError>
    ensures typed { IsOk result → IsPermutation (length sorts.now) perm.now }
    ensures dom { IfOk result (λ shape. shape.dom ≡ sorts.now) }
    ensures cod { IfOk result (λ shape. shape.cod ≡ permuted sorts.now perm.now) }
    ensures clash { IsErrOf result ShapeError.Clash → ¬ IsPermutation (length sorts.now) perm.now }
{
    if perm.places().len() != sorts.as_slice().len() {
        return Err(ShapeError::Clash);
    }
    let cod = sorts_at(alloc, sorts.as_slice(), perm.places())?;
    Ok(Shape {
        dom: sorts.share()?,
        cod: Sorts::from_vec(cod),
    })
}

/// The sorts at the places of `order`.
fn sorts_at(alloc: Global, sorts: &[Sort], order: &[u32]) -> Result<Vec<Sort>, NoMemory>
    requires { (j : ℕ) → j < length order.now → slice_index order.now j < length sorts.now }
    ensures { IfOk result (λ taken. taken.items ≡ permuted sorts.now order.now) }
{
    let mut taken = Vec::with_capacity(alloc, order.len())?;
    for place in order {
        taken.push(sorts[*place as usize].share()?)?;
    }
    Ok(taken)
}
