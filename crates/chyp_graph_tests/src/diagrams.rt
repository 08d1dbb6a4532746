// Small terms, over plain wires, by words.
ghost use Rattle.std.specs.Prelude.{◌≡◌, ◌≤◌, ◌<◌, [], IfOk, IsTrue, length};
ghost use Rattle.chyp_term.specs.Limits.{IsWithinLimits, most_size};
ghost use Rattle.chyp_term.specs.Measure.{size_of};
ghost use Rattle.chyp_term.specs.Morphism.{IsTyped};
ghost use Rattle.chyp_term.specs.Term.{morphism_of};
ghost use Rattle.chyp_graph.specs.GraphOf.{graph_of};

use chyp_base::{Name, NoMemory, Sort, Sorts};
use chyp_graph::{EdgeId, Graph, WireId};
use chyp_term::{
    MOST_DEPTH, MOST_GENERATORS, MOST_SIZE, Perm, Places, Term, depth, gens, shape_of, size,
};
use std::alloc::Global;
use std::rc::Rc;
use std::test::Fail;

/// No wires.
pub(crate) fn none(alloc: Global) -> Sorts
    ensures { result ≡ [] }
{
    Sorts::from_vec(Vec::new(alloc))
}

/// So many plain wires.
pub(crate) fn wires(alloc: Global, count: u32) -> Result<Sorts, NoMemory> {
    let mut sorts = Vec::new(alloc);
    for _ in 0..count {
        sorts.push(Sort::plain(alloc)?)?;
    }
    Ok(Sorts::from_vec(sorts))
}

/// A permutation of wires.
pub(crate) fn permuted(alloc: Global, places: &[u32]) -> Result<Perm, Fail>
    ensures { IfOk result (λ perm. perm ≡ places.now) }
{
    let places = Places::from_vec(Vec::from_slice(alloc, places)?);
    match Perm::new(places) {
        Some(perm) => Ok(perm),
        None => Err(Fail::new("no permutation")),
    }
}

/// A permutation of so many wires, which it is typed for only where it has as many places.
pub(crate) fn rewired(alloc: Global, count: u32, places: &[u32]) -> Result<Term, Fail> {
    let sorts = wires(alloc, count)?;
    let perm = Rc::new(alloc, permuted(alloc, places)?)?;
    Ok(Term::Perm { sorts, perm })
}

/// A generator with so many wires in and out.
fn named(alloc: Global, name: &str, dom: u32, cod: u32) -> Result<Term, Fail> {
    let name = Name::new(alloc, name)?;
    let dom = wires(alloc, dom)?;
    let cod = wires(alloc, cod)?;
    Ok(Term::Gen { name, dom, cod })
}

/// How many wires go into the generator of this name, and how many come out.
fn ports(name: &str) -> (u32, u32) {
    match name {
        "m" => (2, 1),
        "u" => (0, 1),
        "v" | "w" => (1, 0),
        "s" | "t" => (0, 0),
        _ => (1, 1),
    }
}

/// The diagram that a word names: wires that cross, or that don't, or else a generator.
fn named_by(alloc: Global, word: &str) -> Result<Term, Fail> {
    match word {
        "sw" => rewired(alloc, 2, &[1, 0]),
        "id0" => rewired(alloc, 0, &[]),
        "id" => rewired(alloc, 1, &[0]),
        "id2" => rewired(alloc, 2, &[0, 1]),
        _ => {
            let (dom, cod) = ports(word);
            named(alloc, word, dom, cod)
        }
    }
}

/// Takes the last two terms, and puts the one behind or beside the other in their place.
fn join(alloc: Global, terms: &mut Vec<Term>, behind: bool) -> Result<(), Fail> {
    let Some(second) = terms.pop() else {
        return Err(Fail::new("no term to join"));
    };
    let second = Rc::new(alloc, second)?;
    let Some(first) = terms.pop() else {
        return Err(Fail::new("one term to join"));
    };
    let first = Rc::new(alloc, first)?;
    let joined = if behind {
        Term::Seq(first, second)
    } else {
        Term::Par(first, second)
    };
    Ok(terms.push(joined)?)
}

/// Does what a word says: `;` and `*` join the last two terms, and any other word adds a diagram.
fn take(alloc: Global, terms: &mut Vec<Term>, word: &str) -> Result<(), Fail> {
    match word {
        ";" => join(alloc, terms, true),
        "*" => join(alloc, terms, false),
        _ => Ok(terms.push(named_by(alloc, word)?)?),
    }
}

/// The term of these words, each `;` and `*` behind the two terms that it joins.
pub(crate) fn term(alloc: Global, words: &str) -> Result<Term, Fail> {
    let mut terms = Vec::new(alloc);
    for word in words.split_whitespace() {
        take(alloc, &mut terms, word)?;
    }
    match terms.pop() {
        Some(term) if terms.is_empty() => Ok(term),
        _ => Err(Fail::new("words that leave no term, or several")),
    }
}

/// Whether a term is typed and within the limits.
fn is_good(alloc: Global, term: &Term) -> bool
    ensures typed { IsTrue result → IsTyped (morphism_of term.now) }
    ensures within { IsTrue result → IsWithinLimits (morphism_of term.now) }
{
    is_within(term) && shape_of(alloc, term).is_ok()
}

/// Whether a term is within the limits on one term.
fn is_within(term: &Term) -> bool
    ensures { IsTrue result → IsWithinLimits (morphism_of term.now) }
{
    gens(term) <= MOST_GENERATORS && size(term) <= MOST_SIZE && depth(term) <= MOST_DEPTH
}

/// The term of these words, which is typed and within the limits.
pub(crate) fn typed(alloc: Global, words: &str) -> Result<Term, Fail>
    ensures typed { IfOk result (λ term. IsTyped (morphism_of term)) }
    ensures within { IfOk result (λ term. IsWithinLimits (morphism_of term)) }
    ensures small { IfOk result (λ term. size_of (morphism_of term) ≤ most_size) }
{
    checked(alloc, term(alloc, words)?)
}

/// The term, which is typed and within the limits.
pub(crate) fn checked(alloc: Global, term: Term) -> Result<Term, Fail>
    ensures typed { IfOk result (λ term. IsTyped (morphism_of term)) }
    ensures within { IfOk result (λ term. IsWithinLimits (morphism_of term)) }
    ensures small { IfOk result (λ term. size_of (morphism_of term) ≤ most_size) }
{
    if is_good(alloc, &term) {
        return Ok(term);
    }
    Err(Fail::new("no typed term within the limits"))
}

/// The graph of a term.
pub(crate) fn graph_of(alloc: Global, term: &Term) -> Result<Graph, Fail>
    requires typed { IsTyped (morphism_of term.now) }
    requires small { size_of (morphism_of term.now) ≤ most_size }
    ensures { IfOk result (λ graph. graph ≡ graph_of (morphism_of term.now)) }
{
    Ok(Graph::of_term(alloc, term)?)
}

/// The graph of the term of these words.
pub(crate) fn graph(alloc: Global, words: &str) -> Result<Graph, Fail> {
    let term = typed(alloc, words)?;
    let graph = graph_of(alloc, &term);
    // As a call, it takes one step of the proof.
    drop(term);
    graph
}

/// The graph of the term of these words, in words.
pub(crate) fn graph_in_words(alloc: Global, words: &str) -> Result<String, Fail> {
    let graph = graph(alloc, words)?;
    let words = told(alloc, &graph);
    drop(graph);
    words
}

/// Whether the words are these. It lets them go, so that no test holds them where it compares.
pub(crate) fn are(words: String, wanted: &str) -> bool {
    words.as_str() == wanted
}

/// Numbers of wires, each with a blank in front of it.
pub(crate) fn numbers(alloc: Global, wires: &[WireId]) -> Result<String, Fail> {
    let mut words = String::new(alloc);
    for wire in wires {
        words = format!(in alloc; "{words} {}", wire.0)?;
    }
    Ok(words)
}

/// An edge in words: its name, its sources and its targets.
fn told_edge(alloc: Global, graph: &Graph, k: EdgeId) -> Result<String, Fail>
    requires { k < length graph.now.edges }
{
    let edge = graph.edge(k);
    let sources = numbers(alloc, edge.sources)?;
    let targets = numbers(alloc, edge.targets)?;
    let name = edge.name.as_str();
    Ok(format!(in alloc; "{name}{sources} ->{targets}")?)
}

/// A graph in words: how many wires, each edge, and the inputs and outputs.
pub(crate) fn told(alloc: Global, graph: &Graph) -> Result<String, Fail> {
    let mut words = format!(in alloc; "{} wires", graph.wire_count())?;
    for k in 0..graph.edge_count() {
        let edge = told_edge(alloc, graph, EdgeId(k))?;
        words = format!(in alloc; "{words}; {edge}")?;
    }
    let inputs = numbers(alloc, graph.inputs())?;
    let outputs = numbers(alloc, graph.outputs())?;
    Ok(format!(in alloc; "{words};{inputs} ->{outputs}")?)
}

/// A term in words, with each composition and tensor in parentheses, and permutations by their places.
pub(crate) fn told_term(alloc: Global, term: &Term) -> Result<String, Fail> {
    match term {
        Term::Gen { name, .. } => Ok(format!(in alloc; "{}", name.as_str())?),
        Term::Perm { perm, .. } => Ok(format!(in alloc; "{:?}", perm.places())?),
        Term::Seq(first, second) => {
            let first = told_term(alloc, first)?;
            let second = told_term(alloc, second)?;
            Ok(format!(in alloc; "({first} ; {second})")?)
        }
        Term::Par(left, right) => {
            let left = told_term(alloc, left)?;
            let right = told_term(alloc, right)?;
            Ok(format!(in alloc; "({left} * {right})")?)
        }
    }
}

/// Words joined with themselves so many times, each time twice as many.
pub(crate) fn doubled(alloc: Global, word: &str, times: u32, join: &str) -> Result<String, Fail> {
    let mut words = format!(in alloc; "{word}")?;
    for _ in 0..times {
        words = format!(in alloc; "{words} {words} {join}")?;
    }
    Ok(words)
}

/// The words of two terms beside each other.
pub(crate) fn beside(alloc: Global, first: String, second: String) -> Result<String, Fail> {
    Ok(format!(in alloc; "{first} {second} *")?)
}
