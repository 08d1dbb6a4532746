// Terms read back from graphs.
ghost use Rattle.std.specs.Prelude.{◌≡◌, IfOk, length};
ghost use Rattle.chyp_term.specs.Term.{morphism_of, morphisms_of};
ghost use Rattle.chyp_extract.specs.Extraction.{extracted, parts_from};

use crate::front::Front;
use crate::halving::halved;
use crate::join::Join;
use crate::layer::layer;
use crate::rounds::Rounds;
use chyp_base::NoMemory;
use chyp_graph::Graph;
use chyp_term::Term;
use std::alloc::Global;

/// The term that is read back from a graph: one chain, halved, which has for each round of edges, in
/// edge order, the permutation of the live wires to their sources and the other wires, unless it is the
/// identity, and the tensor of their generators and of those wires, and at its end the permutation to
/// the outputs (Bonchi, Gadducci, Kissinger, Sobociński and Zanasi, String Diagram Rewrite Theory II:
/// each such graph is the graph of a term). It takes time and memory in proportion to that term.
///
/// # Errors
///
/// `NoMemory` where the term can't be kept.
pub fn extract(alloc: Global, graph: &Graph) -> Result<Term, NoMemory>
    ensures { IfOk result (λ term. morphism_of term ≡ extracted graph.now) }
{
    graph.valid();
    let parts = parts(alloc, graph)?;
    if parts.is_empty() {
        layer(alloc, graph, &[], graph.inputs())
    } else {
        halved(alloc, Join::Then, &parts)
    }
}

/// The parts of the chain.
fn parts(alloc: Global, graph: &Graph) -> Result<Vec<Term>, NoMemory>
    ensures { IfOk result (λ parts. morphisms_of parts.items
        ≡ parts_from graph.now (length graph.now.edges) graph.now.inputs graph.now.edges) }
{
    graph.valid();
    let rounds = Rounds::of(alloc, graph)?;
    let mut front = Front::new(alloc, graph)?;
    for n in 0..rounds.edges.len() {
        front.place(graph, &rounds, n)?;
    }
    front.cross(graph, graph.outputs())?;
    Ok(front.parts)
}
