// Diagrams from one wire to one, by words.
ghost use Rattle.std.specs.Prelude.{IfOk, IsTrue, OnOk};
ghost use Rattle.chyp_term.specs.Derivation.{IsEquation};
ghost use Rattle.chyp_term.specs.Equation.{equation_of, equations_of};
ghost use Rattle.chyp_term.specs.Limits.{IsWithinLimits};
ghost use Rattle.chyp_term.specs.Term.{morphism_of};
ghost use Rattle.chyp_simp.specs.Laws.{AreUsable, IsUsable};

use chyp_base::{Name, Sort, Sorts};
use chyp_term::{
    Equation, MOST_DEPTH, MOST_GENERATORS, MOST_SIZE, Perm, Places, Term, depth, gens, shape_of,
    size,
};
use std::alloc::Global;
use std::rc::Rc;
use std::test::Fail;

/// So many plain wires.
fn wires(alloc: Global, count: u32) -> Result<Sorts, Fail> {
    let mut sorts = Vec::new(alloc);
    for _ in 0..count {
        sorts.push(Sort::plain(alloc)?)?;
    }
    Ok(Sorts::from_vec(sorts))
}

/// A generator with so many wires in and out.
fn named(alloc: Global, name: &str, dom: u32, cod: u32) -> Result<Term, Fail> {
    let name = Name::new(alloc, name)?;
    let dom = wires(alloc, dom)?;
    let cod = wires(alloc, cod)?;
    Ok(Term::Gen { name, dom, cod })
}

/// The permutation of one wire.
fn one_place(alloc: Global) -> Result<Perm, Fail> {
    match Perm::new(Places::from_vec(vec![in alloc; 0; 1]?)) {
        Some(perm) => Ok(perm),
        None => Err(Fail::new("no permutation")),
    }
}

/// One wire.
fn wire(alloc: Global) -> Result<Term, Fail> {
    let perm = Rc::new(alloc, one_place(alloc)?)?;
    Ok(Term::Perm {
        sorts: wires(alloc, 1)?,
        perm,
    })
}

/// The one diagram beside the other.
fn beside(alloc: Global, first: Term, second: Term) -> Result<Term, Fail> {
    let first = Rc::new(alloc, first)?;
    Ok(Term::Par(first, Rc::new(alloc, second)?))
}

/// The one diagram and then the other.
fn then(alloc: Global, first: Term, second: Term) -> Result<Term, Fail> {
    let first = Rc::new(alloc, first)?;
    Ok(Term::Seq(first, Rc::new(alloc, second)?))
}

/// A diagram and then a box f.
fn then_f(alloc: Global, first: Term) -> Result<Term, Fail> {
    let second = named(alloc, "f", 1, 1)?;
    then(alloc, first, second)
}

/// The box f, 16 times.
fn sixteen(alloc: Global) -> Result<Term, Fail> {
    let mut term = named(alloc, "f", 1, 1)?;
    for _ in 0..15 {
        term = then_f(alloc, term)?;
    }
    Ok(term)
}

/// A wire beside a box without ports.
fn scalar(alloc: Global) -> Result<Term, Fail> {
    let wire = wire(alloc)?;
    beside(alloc, wire, named(alloc, "s", 0, 0)?)
}

/// A unit beside a wire.
fn unit(alloc: Global) -> Result<Term, Fail> {
    let unit = named(alloc, "u", 0, 1)?;
    beside(alloc, unit, wire(alloc)?)
}

/// A unit beside a wire, and then what takes it away.
fn no_unit(alloc: Global) -> Result<Term, Fail> {
    let unit = unit(alloc)?;
    then(alloc, unit, named(alloc, "m", 2, 1)?)
}

/// The diagram of a letter: `s` is a wire beside a box without ports, `e` is u * id ; m, `F` is the box f
/// 16 times, and each other letter is a box.
fn letter(alloc: Global, name: &str) -> Result<Term, Fail> {
    match name {
        "s" => scalar(alloc),
        "e" => no_unit(alloc),
        "F" => sixteen(alloc),
        _ => named(alloc, name, 1, 1),
    }
}

/// A diagram and then that of a letter.
fn then_letter(alloc: Global, first: Term, name: &str) -> Result<Term, Fail> {
    let second = letter(alloc, name)?;
    then(alloc, first, second)
}

/// The diagrams of letters, one behind the other, behind a wire.
fn chain(alloc: Global, letters: &str) -> Result<Term, Fail> {
    let mut term = wire(alloc)?;
    for name in letters.split_whitespace() {
        term = then_letter(alloc, term, name)?;
    }
    Ok(term)
}

/// Whether both terms are typed, have one type, and are within the limits.
fn are_usable(alloc: Global, left: &Term, right: &Term) -> bool
    ensures equation { IsTrue result → IsEquation (morphism_of left.now) (morphism_of right.now) }
    ensures left { IsTrue result → IsWithinLimits (morphism_of left.now) }
    ensures right { IsTrue result → IsWithinLimits (morphism_of right.now) }
{
    is_within(left) && is_within(right) && have_one_type(alloc, left, right)
}

/// Whether a term is within the limits on one term.
fn is_within(term: &Term) -> bool
    ensures { IsTrue result → IsWithinLimits (morphism_of term.now) }
{
    gens(term) <= MOST_GENERATORS && size(term) <= MOST_SIZE && depth(term) <= MOST_DEPTH
}

/// Whether both terms are typed, and have one type.
fn have_one_type(alloc: Global, left: &Term, right: &Term) -> bool
    ensures { IsTrue result → IsEquation (morphism_of left.now) (morphism_of right.now) }
{
    match (shape_of(alloc, left), shape_of(alloc, right)) {
        (Ok(first), Ok(second)) => first.dom == second.dom && first.cod == second.cod,
        _ => false,
    }
}

/// The equation of two terms.
fn equation_between(alloc: Global, left: Term, right: Term) -> Result<Equation, Fail>
    ensures { IfOk result (λ equation. IsUsable (equation_of equation)) }
{
    if are_usable(alloc, &left, &right) {
        return Ok(Equation { left, right });
    }
    Err(Fail::new("no equation within the limits"))
}

/// The equation of two chains.
pub(crate) fn equation(alloc: Global, left: &str, right: &str) -> Result<Equation, Fail>
    ensures { IfOk result (λ equation. IsUsable (equation_of equation)) }
{
    let left = chain(alloc, left)?;
    equation_between(alloc, left, chain(alloc, right)?)
}

/// Puts the equations of these words behind those of a list.
fn add(
    alloc: Global,
    equations: &mut Vec<Equation>,
    table: &[[&'static str; 2]],
) -> Result<(), Fail>
    requires { AreUsable (equations_of equations.old.items) }
    ensures { OnOk result (AreUsable (equations_of equations.new.items)) }
{
    for sides in table {
        let next = equation(alloc, sides[0], sides[1])?;
        equations.push(next)?;
    }
    Ok(())
}

/// The equations of these words, each with its two sides one behind the other.
pub(crate) fn equations(alloc: Global, table: &[[&'static str; 2]]) -> Result<Vec<Equation>, Fail>
    ensures { IfOk result (λ equations. AreUsable (equations_of equations.items)) }
{
    let mut equations = Vec::new(alloc);
    add(alloc, &mut equations, table)?;
    Ok(equations)
}
