// Terms as texts.
ghost use Rattle.std.specs.Prelude.{◌≡◌, ◌++◌, IfOk};
ghost use Rattle.chyp_term.specs.Term.{morphism_of};
ghost use Rattle.chyp_print.specs.Printing.{printed_by, printed_in};
ghost use Rattle.chyp_print.specs.Reading.{HasSmallPlaces, IsReadBack, IsReadBackItself};

use crate::Names;
use crate::laws::printed_terms_are_read_back;
use crate::places::{push_permutation, small};
use chyp_base::{NoMemory, Text};
use chyp_term::Term;
use std::alloc::Global;

/// The text of a term, where generators have these names. It takes time and memory in proportion to the
/// text, and goes by recursion as deep as the term.
///
/// # Errors
///
/// `NoMemory` where the text can't be kept.
pub fn print<N: Names>(alloc: Global, term: &Term, names: &N) -> Result<Text, NoMemory>
    ensures text { IfOk result (λ text. text ≡ printed_by (N.naming names.now) (morphism_of term.now)) }
    ensures back { IfOk result (λ text. IsReadBack (N.naming names.now) (morphism_of term.now) text) }
    ensures itself { IfOk result (λ text. IsReadBackItself (N.naming names.now) (morphism_of term.now) text) }
{
    printed_terms_are_read_back();
    written(alloc, term, names)
}

/// The text of a term.
fn written<N: Names>(alloc: Global, term: &Term, names: &N) -> Result<Text, NoMemory>
    ensures text { IfOk result (λ text. text ≡ printed_by (N.naming names.now) (morphism_of term.now)) }
    ensures small { IfOk result (λ _. HasSmallPlaces (morphism_of term.now)) }
{
    let mut out = Vec::new(alloc);
    push_term(&mut out, term, names, false)?;
    Ok(Text::from_vec(out))
}

/// Adds the text of a term, which stands in a tensor or not.
fn push_term<N: Names>(
    out: &mut Vec<u8>,
    term: &Term,
    names: &N,
    in_tensor: bool,
) -> Result<(), NoMemory>
    ensures text { IfOk result (λ _. out.new.items ≡ out.old.items ++ printed_in (N.naming names.now) in_tensor (morphism_of term.now)) }
    ensures small { IfOk result (λ _. HasSmallPlaces (morphism_of term.now)) }
{
    match term {
        Term::Gen { name, dom, cod } => {
            Ok(out.extend_from_slice(names.name_of(name, dom, cod).as_bytes())?)
        }
        Term::Perm { perm, .. } => {
            small(perm);
            push_permutation(out, perm.places())
        }
        Term::Seq(first, second) => {
            if in_tensor {
                out.push(b'(')?;
            }
            push_term(out, first, names, false)?;
            out.extend_from_slice(b" ; ")?;
            push_term(out, second, names, false)?;
            if in_tensor {
                out.push(b')')?;
            }
            Ok(())
        }
        Term::Par(left, right) => {
            push_term(out, left, names, true)?;
            out.extend_from_slice(b" * ")?;
            push_term(out, right, names, true)
        }
    }
}
