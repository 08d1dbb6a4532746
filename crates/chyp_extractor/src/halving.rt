// Terms in a row, joined by halves.
ghost use Rattle.std.specs.Prelude.{◌≡◌, IfOk};
ghost use Rattle.chyp_term.specs.Derivation.{empty};
ghost use Rattle.chyp_term.specs.Halving.{halved};
ghost use Rattle.chyp_term.specs.Term.{morphism_of, morphisms_of};
ghost use Rattle.chyp_extractor.specs.Joining.{join_of};

use crate::join::Join;
use crate::layer::permutation;
use chyp_base::{NoMemory, Sorts};
use chyp_term::{Term, copy};
use std::alloc::Global;
use std::rc::Rc;

/// Parts in a row: the first half of them, rounded down, and then the rest. The recursion goes as deep
/// as the logarithm of their number.
pub(crate) fn halved(alloc: Global, join: Join, parts: &[Term]) -> Result<Term, NoMemory>
    ensures { IfOk result (λ term. morphism_of term ≡ halved (join_of join) (morphisms_of parts.now)) }
{
    match parts {
        [] => no_wires(alloc),
        [part] => copy(part),
        _ => {
            let half = parts.len() / 2;
            let first = halved(alloc, join, &parts[..half])?;
            let rest = halved(alloc, join, &parts[half..])?;
            joined(alloc, join, first, rest)
        }
    }
}

/// Two terms joined.
fn joined(alloc: Global, join: Join, first: Term, rest: Term) -> Result<Term, NoMemory>
    ensures { IfOk result (λ term. morphism_of term ≡ join_of join (morphism_of first) (morphism_of rest)) }
{
    let first = Rc::new(alloc, first)?;
    let rest = Rc::new(alloc, rest)?;
    match join {
        Join::Then => Ok(Term::Seq(first, rest)),
        Join::Beside => Ok(Term::Par(first, rest)),
    }
}

/// The empty diagram.
fn no_wires(alloc: Global) -> Result<Term, NoMemory>
    ensures { IfOk result (λ term. morphism_of term ≡ empty) }
{
    permutation(alloc, Sorts::from_vec(Vec::new(alloc)), Vec::new(alloc))
}
