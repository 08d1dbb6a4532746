// Graphs of terms that are given in words, and terms told in words.
ghost use Rattle.std.specs.Prelude.{◌≤◌, IfOk, IsTrue};
ghost use Rattle.chyp_term.specs.Limits.{most_size};
ghost use Rattle.chyp_term.specs.Measure.{size_of};
ghost use Rattle.chyp_term.specs.Morphism.{IsTyped};
ghost use Rattle.chyp_term.specs.Term.{morphism_of};

use chyp_base::{Name, Sort, Sorts};
use chyp_graph::Graph;
use chyp_term::{MOST_DEPTH, MOST_SIZE, Perm, Places, Term, depth, shape_of, size};
use std::alloc::Global;
use std::rc::Rc;
use std::test::Fail;

/// So many plain wires.
pub(crate) fn wires(alloc: Global, count: usize) -> Result<Sorts, Fail> {
    let mut sorts = Vec::new(alloc);
    for _ in 0..count {
        sorts.push(Sort::plain(alloc)?)?;
    }
    Ok(Sorts::from_vec(sorts))
}

/// A permutation of plain wires.
pub(crate) fn permutation(alloc: Global, places: Vec<u32>) -> Result<Term, Fail> {
    let sorts = wires(alloc, places.len())?;
    match Perm::new(Places::from_vec(places)) {
        Some(perm) => Ok(Term::Perm {
            sorts,
            perm: Rc::new(alloc, perm)?,
        }),
        None => Err(Fail::new("no permutation")),
    }
}

/// A generator, whose name tells its ports.
fn generator(alloc: Global, name: &str) -> Result<Term, Fail> {
    let (dom, cod) = match name {
        "m" => (2, 1),
        "u" => (0, 1),
        "s" | "t" => (0, 0),
        _ => (1, 1),
    };
    Ok(Term::Gen {
        name: Name::new(alloc, name)?,
        dom: wires(alloc, dom)?,
        cod: wires(alloc, cod)?,
    })
}

/// The diagram that a word names: a permutation by its places, or a generator.
fn named(alloc: Global, word: &str) -> Result<Term, Fail> {
    let places = match word {
        "id0" => Vec::new(alloc),
        "id" => vec![in alloc; 0]?,
        "id2" => vec![in alloc; 0, 1]?,
        "sw" => vec![in alloc; 1, 0]?,
        "turn" => vec![in alloc; 1, 2, 0]?,
        _ => return generator(alloc, word),
    };
    permutation(alloc, places)
}

/// Takes the last term.
fn last(terms: &mut Vec<Term>) -> Result<Term, Fail> {
    match terms.pop() {
        Some(term) => Ok(term),
        None => Err(Fail::new("too few terms")),
    }
}

/// Does what a word says: `;` and `*` join the last two terms, and any other word adds a diagram.
fn take(alloc: Global, terms: &mut Vec<Term>, word: &str) -> Result<(), Fail> {
    if word != ";" && word != "*" {
        return Ok(terms.push(named(alloc, word)?)?);
    }
    let second = Rc::new(alloc, last(terms)?)?;
    let first = Rc::new(alloc, last(terms)?)?;
    let joined = if word == ";" {
        Term::Seq(first, second)
    } else {
        Term::Par(first, second)
    };
    Ok(terms.push(joined)?)
}

/// The term of these words, each `;` and `*` behind the two terms that it joins.
pub(crate) fn term(alloc: Global, words: &str) -> Result<Term, Fail> {
    let mut terms = Vec::new(alloc);
    for word in words.split_whitespace() {
        take(alloc, &mut terms, word)?;
    }
    last(&mut terms)
}

/// Whether a term is typed and within the limits.
pub(crate) fn is_good(alloc: Global, term: &Term) -> bool
    ensures typed { IsTrue result → IsTyped (morphism_of term.now) }
    ensures small { IsTrue result → size_of (morphism_of term.now) ≤ most_size }
{
    size(term) <= MOST_SIZE && depth(term) <= MOST_DEPTH && shape_of(alloc, term).is_ok()
}

/// The graph of a term.
pub(crate) fn graph_of(alloc: Global, term: &Term) -> Result<Graph, Fail> {
    if is_good(alloc, term) {
        return Ok(Graph::of_term(alloc, term)?);
    }
    Err(Fail::new("no typed term within the limits"))
}

/// The graph of the term of these words.
pub(crate) fn graph(alloc: Global, words: &str) -> Result<Graph, Fail> {
    graph_of(alloc, &term(alloc, words)?)
}

/// A term in words, with each composition and tensor in parentheses, and permutations by their places.
pub(crate) fn told(alloc: Global, term: &Term) -> Result<String, Fail> {
    match term {
        Term::Gen { name, .. } => Ok(format!(in alloc; "{}", name.as_str())?),
        Term::Perm { perm, .. } => Ok(format!(in alloc; "{:?}", perm.places())?),
        Term::Seq(first, second) => {
            let first = told(alloc, first)?;
            let second = told(alloc, second)?;
            Ok(format!(in alloc; "({first} ; {second})")?)
        }
        Term::Par(left, right) => {
            let left = told(alloc, left)?;
            let right = told(alloc, right)?;
            Ok(format!(in alloc; "({left} * {right})")?)
        }
    }
}
