ghost use Rattle.std.specs.Prelude.{IfOk, ◌≡◌};
ghost use Rattle.chyp_term.specs.Derivation.{empty};
ghost use Rattle.chyp_term.specs.Term.{morphism_of};

use crate::diagrams::none;
use chyp_laws::{derivation_gives_same, graphs_decide_the_laws, same_gives_derivation};
use chyp_term::{Perm, Places, Term};
use chyp_theory::{
    derivations_are_equations, types_are_decided, wires_are_decided, wires_are_permutations,
};
use std::alloc::Global;
use std::rc::Rc;
use std::test::Fail;

/// The diagram without wires.
fn nothing(alloc: Global) -> Result<Term, Fail>
    ensures { IfOk result (λ term. morphism_of term ≡ empty) }
{
    let Some(perm) = Perm::new(Places::from_vec(Vec::new(alloc))) else {
        return Err(Fail::new("the empty list is a permutation"));
    };
    Ok(Term::Perm {
        sorts: none(alloc),
        perm: Rc::new(alloc, perm)?,
    })
}

#[test]
fn laws_over_all_terms_are_called(_: HostRuntime) {
    derivations_are_equations();
    types_are_decided();
    wires_are_permutations();
    graphs_decide_the_laws();
}

#[test]
fn laws_are_called_for_two_terms(rt: HostRuntime) -> Result<(), Fail> {
    let alloc = rt.alloc();
    let left = nothing(alloc)?;
    let right = nothing(alloc)?;
    wires_are_decided(&left, &right);
    derivation_gives_same(&left, &right);
    same_gives_derivation(&left, &right);
    Ok(())
}
