// Terms as trees.
ghost use Rattle.std.specs.Prelude.{◌≡◌, IfOk};
ghost use Rattle.chyp_term.specs.Term.{morphism_of};

use crate::Perm;
use chyp_base::{Name, NoMemory, Sorts};
use std::rc::Rc;

/// A term of string diagrams, typed or not. Contracts see it through `morphism_of` of
/// `specs/Term.antt`, which doesn't tell how its parts are shared.
#[derive(Debug, Drop)]
pub enum Term {
    /// A generator, by its name and its type.
    Gen { name: Name, dom: Sorts, cod: Sorts },
    /// A permutation of wires of the given sorts.
    Perm { sorts: Sorts, perm: Rc<Perm> },
    /// The first term and then the second: `s ; t`.
    Seq(Rc<Term>, Rc<Term>),
    /// The first term beside the second: `s * t`.
    Par(Rc<Term>, Rc<Term>),
}

/// An equal term, which shares its parts with this one. It takes constant time and no memory, but for
/// lists of sorts that aren't shared yet, which it copies.
///
/// # Errors
///
/// `NoMemory` where such a list can't be kept, or a part or a name can't be shared once more.
pub fn copy(term: &Term) -> Result<Term, NoMemory>
    ensures { IfOk result (λ copied. morphism_of copied ≡ morphism_of term.now) }
{
    match term {
        Term::Gen { name, dom, cod } => Ok(Term::Gen {
            name: name.share()?,
            dom: dom.share()?,
            cod: cod.share()?,
        }),
        Term::Perm { sorts, perm } => Ok(Term::Perm {
            sorts: sorts.share()?,
            perm: perm.clone()?,
        }),
        Term::Seq(first, second) => Ok(Term::Seq(first.clone()?, second.clone()?)),
        Term::Par(left, right) => Ok(Term::Par(left.clone()?, right.clone()?)),
    }
}
