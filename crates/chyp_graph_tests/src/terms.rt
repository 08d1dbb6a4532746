ghost use Rattle.std.specs.Prelude.{◌≡◌, ◌+◌, ◌<◌, ◌^◌, length};

use crate::diagrams::{are, permuted, rewired, term};
use chyp_term::{
    Equation, Equations, Perm, Places, Shape, ShapeError, Step, StepList, Term, Terms, copy, depth,
    gens, shape_of, size,
};
use std::alloc::Global;
use std::test::Fail;

fn composed(alloc: Global, first: &[u32], second: &[u32]) -> Result<Perm, Fail>
    requires { length first.now ≡ length second.now }
{
    let first = permuted(alloc, first)?;
    let second = permuted(alloc, second)?;
    Ok(first.compose(&second)?)
}

fn side_by_side(alloc: Global, first: &[u32], second: &[u32]) -> Result<Perm, Fail>
    requires { length first.now + length second.now < 2 ^ 32 }
{
    let first = permuted(alloc, first)?;
    let second = permuted(alloc, second)?;
    Ok(first.beside(&second)?)
}

#[test]
fn permutations_compose(rt: HostRuntime) -> Result<(), Fail> {
    let perm = composed(rt.alloc(), &[1, 2, 0], &[1, 0, 2])?;
    assert_eq!(rt; perm.places(), [2, 1, 0].as_slice());
    Ok(())
}

#[test]
fn permutations_stand_beside_each_other(rt: HostRuntime) -> Result<(), Fail> {
    let perm = side_by_side(rt.alloc(), &[1, 0], &[0])?;
    assert_eq!(rt; perm.places(), [1, 0, 2].as_slice());
    Ok(())
}

/// Whether a permutation has these places. It lets it go.
fn has_places(perm: Perm, places: &[u32]) -> bool {
    perm.places() == places
}

#[test]
fn a_permutation_has_an_inverse_and_a_copy(rt: HostRuntime) -> Result<(), Fail> {
    let alloc = rt.alloc();
    let turned = permuted(alloc, &[1, 2, 0])?;
    let inverse = turned.invert();
    drop(turned);
    assert!(rt; has_places(inverse?, &[2, 0, 1]));
    let turned = permuted(alloc, &[1, 2, 0])?;
    let copied = turned.copy();
    drop(turned);
    assert!(rt; has_places(copied?, &[1, 2, 0]));
    Ok(())
}

#[test]
fn two_blocks_of_wires_are_swapped(rt: HostRuntime) -> Result<(), Fail> {
    let swap = Perm::block_swap(rt.alloc(), 1, 2)?;
    assert_eq!(rt; swap.places(), [1, 2, 0].as_slice());
    Ok(())
}

#[test]
fn places_that_are_no_permutation_are_refused(rt: HostRuntime) -> Result<(), Fail> {
    let alloc = rt.alloc();
    for (places, good) in [
        ([0, 0], false),
        ([0, 2], false),
        ([0, 1], true),
        ([1, 0], true),
    ] {
        let places = Places::from_vec(Vec::from_slice(alloc, &places)?);
        assert_eq!(rt; places.as_slice().len(), 2);
        let places = Places::from_vec(places.into_vec());
        assert_eq!(rt; Perm::new(places).is_some(), good);
    }
    Ok(())
}

fn clashes(alloc: Global, term: &Term) -> bool {
    matches!(shape_of(alloc, term), Err(ShapeError::Clash))
}

// A term from four wires to three.
const TYPED: &str = "sw m ; sw *";

#[test]
fn a_term_has_a_type_or_a_clash(rt: HostRuntime) -> Result<(), Fail> {
    let alloc = rt.alloc();
    let term = term(alloc, TYPED)?;
    let Shape { dom, cod } = shape_of(alloc, &term).map_err(|_| Fail::new("no type"))?;
    assert_eq!(rt; [dom.as_slice().len(), cod.as_slice().len()], [4, 3]);
    Ok(())
}

#[test]
fn a_term_that_is_not_typed_clashes(rt: HostRuntime) -> Result<(), Fail> {
    let alloc = rt.alloc();
    let composed = term(alloc, "m m ;")?;
    let clashing = clashes(alloc, &composed);
    let copied = is_copied(alloc, &composed);
    drop(composed);
    assert!(rt; copied?);
    assert!(rt; clashing);
    let rewired = rewired(alloc, 3, &[1, 0])?;
    let clashing = clashes(alloc, &rewired);
    drop(rewired);
    assert!(rt; clashing);
    Ok(())
}

fn written(alloc: Global, term: &Term) -> Result<String, Fail> {
    Ok(format!(in alloc; "{term:?}")?)
}

/// Whether a copy of a term is written as these words.
fn is_copied_as(alloc: Global, term: &Term, words: &str) -> Result<bool, Fail> {
    let copied = copy(term)?;
    let copy_in_words = written(alloc, &copied);
    // As a call, it takes one step of the proof.
    drop(copied);
    Ok(are(copy_in_words?, words))
}

/// Whether a copy of a term is written as the term.
fn is_copied(alloc: Global, term: &Term) -> Result<bool, Fail> {
    let words = written(alloc, term)?;
    let same = is_copied_as(alloc, term, &words);
    drop(words);
    same
}

/// How big a copy of a term is: its size, its depth, and how many generators it has.
fn sizes_of_copy(term: &Term) -> Result<[u64; 3], Fail> {
    let copied = copy(term)?;
    let sizes = [size(&copied), depth(&copied), gens(&copied)];
    drop(copied);
    Ok(sizes)
}

#[test]
fn a_copy_is_equal_and_as_big(rt: HostRuntime) -> Result<(), Fail> {
    let alloc = rt.alloc();
    let first = term(alloc, TYPED)?;
    let sizes = sizes_of_copy(&first);
    drop(first);
    assert_eq!(rt; sizes?, [12, 3, 1]);
    let second = term(alloc, TYPED)?;
    let same = is_copied(alloc, &second);
    drop(second);
    assert!(rt; same?);
    Ok(())
}

fn equation(alloc: Global) -> Result<Equation, Fail> {
    Ok(Equation {
        left: term(alloc, "m")?,
        right: term(alloc, TYPED)?,
    })
}

fn equation_list(alloc: Global) -> Result<Equations, Fail> {
    Ok(Equations::from_vec(Vec::from_array(alloc, [equation(alloc)?])?))
}

fn term_list(alloc: Global) -> Result<Terms, Fail> {
    Ok(Terms::from_vec(Vec::from_array(alloc, [term(alloc, "m")?])?))
}

fn step_list(alloc: Global) -> Result<StepList, Fail> {
    let mut steps = Vec::new(alloc);
    steps.push(Step::Refl)?;
    steps.push(Step::ByRule(equation(alloc)?))?;
    steps.push(Step::Simp(equation_list(alloc)?))?;
    Ok(StepList::from_vec(steps))
}

#[test]
fn lists_show_and_give_back_what_they_hold(rt: HostRuntime) -> Result<(), Fail> {
    let alloc = rt.alloc();
    let terms = Terms::from_vec(term_list(alloc)?.into_vec());
    assert_eq!(rt; terms.as_slice().len(), 1);
    let equations = Equations::from_vec(equation_list(alloc)?.into_vec());
    assert_eq!(rt; equations.as_slice().len(), 1);
    let steps = StepList::from_vec(step_list(alloc)?.into_vec());
    assert_eq!(rt; steps.as_slice().len(), 3);
    Ok(())
}
