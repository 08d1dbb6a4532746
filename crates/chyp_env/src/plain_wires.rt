// Plain wires, in lists and terms that are shared.
ghost use Rattle.std.specs.Prelude.{◌≡◌, [], ◌∷◌, IfOk, length};
ghost use Rattle.chyp_base.specs.Sort.{plain as the_plain};
ghost use Rattle.chyp_term.specs.Morphism.{permutation as a_permutation};
ghost use Rattle.chyp_term.specs.Perm.{IsPermutation};
ghost use Rattle.chyp_term.specs.Term.{morphism_of};
ghost use Rattle.chyp_env.specs.Expansion.{plain_permutation, plain_wires};

use chyp_base::{NoMemory, Sort, Sorts};
use chyp_term::{Perm, Places, Term, copy};
use std::alloc::Global;
use std::marker::Model;
use std::rc::Rc;

/// The sort of a plain wire, the lists of plain wires that most terms have, and the terms of `id0`, `id`
/// and `sw`.
#[derive(Drop)]
pub struct PlainWires {
    sort: Sort,
    one: Sorts,
    two: Sorts,
    none: Term,
    wire: Term,
    crossing: Term,
}

impl Model for PlainWires {
    ghost use Rattle.chyp_term.specs.Term.{morphism_of};
    ghost use Rattle.chyp_env.specs.PlainWires.{ArePlain, AreShared};

    ghost Value = { Unit {0} };

    ghost view = { λ p. tt };

    ghost invariant = { λ p. ArePlain p.sort p.one p.two
        × AreShared (morphism_of p.none) (morphism_of p.wire) (morphism_of p.crossing) };
}

impl PlainWires {
    /// The plain wires, made once and shared from then on.
    ///
    /// # Errors
    ///
    /// `NoMemory` where they can't be kept.
    pub fn new(alloc: Global) -> Result<PlainWires, NoMemory> {
        let sort = Sort::plain(alloc)?;
        let one = repeated(alloc, &sort, 1)?.into_shared()?;
        let two = repeated(alloc, &sort, 2)?.into_shared()?;
        let none = permutation(alloc, repeated(alloc, &sort, 0)?, Vec::new(alloc))?;
        let wire = permutation(alloc, one.share()?, vec![in alloc; 0]?)?;
        let crossing = permutation(alloc, two.share()?, vec![in alloc; 1, 0]?)?;
        Ok(PlainWires {
            sort,
            one,
            two,
            none,
            wire,
            crossing,
        })
    }

    /// So many plain wires, in a list that is shared.
    ///
    /// # Errors
    ///
    /// `NoMemory` where the list can't be kept, or can't be shared once more.
    pub fn wires(&self, alloc: Global, count: usize) -> Result<Sorts, NoMemory>
        ensures { IfOk result (λ sorts. sorts ≡ plain_wires count) }
    {
        match count {
            1 => self.one.share(),
            2 => self.two.share(),
            _ => repeated(alloc, &self.sort, count)?.into_shared(),
        }
    }

    /// The term of `id0`.
    ///
    /// # Errors
    ///
    /// `NoMemory` where it can't be shared once more.
    pub(crate) fn none(&self) -> Result<Term, NoMemory>
        ensures { IfOk result (λ term. morphism_of term ≡ plain_permutation []) }
    {
        copy(&self.none)
    }

    /// The term of `id`.
    ///
    /// # Errors
    ///
    /// `NoMemory` where it can't be shared once more.
    pub(crate) fn wire(&self) -> Result<Term, NoMemory>
        ensures { IfOk result (λ term. morphism_of term ≡ plain_permutation (0 ∷ [])) }
    {
        copy(&self.wire)
    }

    /// The term of `sw`.
    ///
    /// # Errors
    ///
    /// `NoMemory` where it can't be shared once more.
    pub(crate) fn crossing(&self) -> Result<Term, NoMemory>
        ensures { IfOk result (λ term. morphism_of term ≡ plain_permutation (1 ∷ 0 ∷ [])) }
    {
        copy(&self.crossing)
    }
}

// So many plain wires, in a list of their own.
fn repeated(alloc: Global, sort: &Sort, count: usize) -> Result<Sorts, NoMemory>
    requires { sort.now ≡ the_plain }
    ensures { IfOk result (λ sorts. sorts ≡ plain_wires count) }
{
    let mut sorts = Vec::with_capacity(alloc, count)?;
    for _ in 0..count {
        sorts.push(sort.share()?)?;
    }
    Ok(Sorts::from_vec(sorts))
}

/// The permutation of these wires with these places.
///
/// # Errors
///
/// `NoMemory` where it can't be kept.
pub(crate) fn permutation(alloc: Global, sorts: Sorts, places: Vec<u32>) -> Result<Term, NoMemory>
    requires { IsPermutation (length places.items) places.items }
    ensures { IfOk result (λ term. morphism_of term ≡ a_permutation sorts places.items) }
{
    match Perm::new(Places::from_vec(places)) {
        Some(perm) => Ok(Term::Perm {
            sorts,
            perm: Rc::new(alloc, perm)?,
        }),
        None => unreachable!(),
    }
}
