// How big the terms are that are read back from graphs.
ghost use Rattle.std.specs.Prelude.{◌≡◌, ◌-◌, ◌^◌, IfOk, length, map, min};
ghost use Rattle.chyp_term.specs.Measure.{depth_of, generators_of, size_of};
ghost use Rattle.chyp_extract.specs.Extraction.{extracted};
ghost use Rattle.chyp_extract.specs.Measuring.{measured, measures_from};
ghost use Rattle.chyp_extractor.specs.Measures.{kept};

use crate::measures::{Measures, halved};
use crate::rounds::Rounds;
use crate::tally::Tally;
use chyp_base::NoMemory;
use chyp_graph::Graph;
use std::alloc::Global;

/// The measures of the term that `extract` reads back from a graph, which isn't made: what the calls of
/// `chyp_term` answer on that term. It takes time and memory in proportion to the graph.
///
/// # Errors
///
/// `NoMemory` where what is counted can't be kept.
pub fn measure(alloc: Global, graph: &Graph) -> Result<Measures, NoMemory>
    ensures size { IfOk result (λ m. m.size ≡ min (size_of (extracted graph.now)) (2 ^ 64 - 1)) }
    ensures depth { IfOk result (λ m. m.depth ≡ min (depth_of (extracted graph.now)) (2 ^ 64 - 1)) }
    ensures gens { IfOk result (λ m. m.gens ≡ min (generators_of (extracted graph.now)) (2 ^ 64 - 1)) }
{
    graph.valid();
    measured(alloc, graph)
}

/// The measures of that term, by the rounds of the graph.
fn measured(alloc: Global, graph: &Graph) -> Result<Measures, NoMemory>
    ensures { IfOk result (λ m. m ≡ kept (measured graph.now)) }
{
    graph.valid();
    let parts = parts(alloc, graph)?;
    if parts.is_empty() {
        Ok(Measures::of_layer(graph, &[], graph.inputs().len() as u32))
    } else {
        Ok(halved(&parts))
    }
}

/// The measures of the parts of the chain.
fn parts(alloc: Global, graph: &Graph) -> Result<Vec<Measures>, NoMemory>
    ensures { IfOk result (λ parts. parts.items
        ≡ map kept (measures_from graph.now (length graph.now.edges) graph.now.inputs graph.now.edges)) }
{
    graph.valid();
    let rounds = Rounds::of(alloc, graph)?;
    let mut tally = Tally::new(alloc, graph)?;
    for n in 0..rounds.edges.len() {
        tally.place(graph, &rounds, n)?;
    }
    tally.cross(graph, &rounds, rounds.edges.len(), graph.outputs())?;
    Ok(tally.parts)
}
