// What stands before each round of extraction.
ghost use Rattle.std.specs.Prelude.{◌≡◌, ◌+◌, ◌<◌, [], ◌++◌, IfOk, length};
ghost use Rattle.chyp_term.specs.Term.{morphisms_of};
ghost use Rattle.chyp_extract.specs.Extraction.{crossing};
ghost use Rattle.chyp_extractor.specs.Crossing.{IsReordered};
ghost use Rattle.chyp_extractor.specs.Fronts.{IsFront, live_at, others_at, parts_at};
ghost use Rattle.chyp_extractor.specs.Rounds.{IsByRounds};

use crate::crossing::push_crossing;
use crate::layer::{layer, sources_of, targets_of};
use crate::rounds::Rounds;
use chyp_base::NoMemory;
use chyp_graph::{Graph, WireId};
use chyp_term::Term;
use std::alloc::Global;

/// The live wires, and the parts of the term so far.
#[derive(Drop)]
pub(crate) struct Front {
    /// The live wires, in order.
    pub(crate) live: Vec<WireId>,
    /// A place for each wire of the graph, to be written.
    pub(crate) places: Vec<u32>,
    /// The parts.
    pub(crate) parts: Vec<Term>,
}

impl Front {
    /// The inputs are live, and there is no part.
    pub(crate) fn new(alloc: Global, graph: &Graph) -> Result<Front, NoMemory>
        ensures front { IfOk result (λ front. IsFront graph.now 0 front) }
        ensures parts { IfOk result (λ front. front.parts.items ≡ []) }
    {
        Ok(Front {
            live: Vec::from_slice(alloc, graph.inputs())?,
            places: vec![in alloc; 0; graph.wire_count() as usize]?,
            parts: Vec::new(alloc),
        })
    }

    /// Adds the permutation of the live wires to those that are wanted, unless it is the identity.
    pub(crate) fn cross(&mut self, graph: &Graph, wanted: &[WireId]) -> Result<(), NoMemory>
        requires places { length self.old.places.items ≡ length graph.now.wires }
        requires reordered { IsReordered graph.now self.old.live.items wanted.now }
        ensures live { IfOk result (λ _. self.new.live.items ≡ self.old.live.items) }
        ensures places { IfOk result (λ _. length self.new.places.items ≡ length graph.now.wires) }
        ensures parts { IfOk result (λ _. morphisms_of self.new.parts.items
            ≡ morphisms_of self.old.parts.items ++ crossing graph.now self.old.live.items wanted.now) }
    {
        push_crossing(&mut self.parts, graph, &mut self.places, &self.live, wanted)
    }

    /// Adds the parts of the round after so many rounds: the permutation to the sources of its edges
    /// and the other live wires, and one layer.
    pub(crate) fn place(&mut self, graph: &Graph, rounds: &Rounds, n: usize) -> Result<(), NoMemory>
        requires rounds { IsByRounds graph.now rounds.now }
        requires round { n < length rounds.now.edges.items }
        requires front { IsFront graph.now n self.old }
        ensures front { IfOk result (λ _. IsFront graph.now (n + 1) self.new) }
        ensures parts { IfOk result (λ _. morphisms_of self.new.parts.items
            ≡ morphisms_of self.old.parts.items ++ parts_at graph.now n) }
    {
        graph.valid();
        let alloc = graph.allocator();
        let edges = rounds.edges[n].as_slice();
        let others = passed_by(graph, rounds, n, &self.live)?;
        let mut wanted = sources_of(alloc, graph, edges)?;
        wanted.extend_from_slice(&others)?;
        self.cross(graph, &wanted)?;
        self.parts.push(layer(alloc, graph, edges, &others)?)?;
        let mut live = targets_of(alloc, graph, edges)?;
        live.extend_from_slice(&others)?;
        self.live = live;
        Ok(())
    }
}

/// Those of the live wires after so many rounds that the next round passes by, in order.
fn passed_by(
    graph: &Graph,
    rounds: &Rounds,
    n: usize,
    live: &[WireId],
) -> Result<Vec<WireId>, NoMemory>
    requires rounds { IsByRounds graph.now rounds.now }
    requires round { n < length rounds.now.edges.items }
    requires live { live.now ≡ live_at graph.now n }
    ensures { IfOk result (λ others. others.items ≡ others_at graph.now n) }
{
    graph.valid();
    let mut others = Vec::new(graph.allocator());
    for w in live {
        if !rounds.is_used(graph, n + 1, *w) {
            others.push(*w)?;
        }
    }
    Ok(others)
}
