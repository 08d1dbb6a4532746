// Taking edges away one by one, each once its sources are live.
ghost use Rattle.std.specs.Prelude.{◌≡◌, ℕ, ◌<◌, ◌≤◌, true, false, All, IfOk, Some, length, slice_get, slice_set};
ghost use Rattle.chyp_term.specs.Positions.{is_among};
ghost use Rattle.chyp_graph.specs.Graph.{source_at};
ghost use Rattle.chyp_graph.specs.Removal.{AreLive, Grows, IsTopologicalOrder, IsRemoval, IsSourceless, StayLive, live_behind};
ghost use Rattle.chyp_graph.specs.Validity.{IsValid};

use crate::{EdgeId, Graph, WireId};
use chyp_base::NoMemory;
use std::alloc::Global;

/// Some wires that are live, and the edges whose sources they all are.
#[derive(Drop)]
pub(crate) struct Removal {
    /// Whether the wire of each number is live.
    pub(crate) live: Vec<bool>,
    /// The place of the first source of each edge that is not live.
    pub(crate) waits: Vec<usize>,
    /// The edges that have no such place, as they were found.
    pub(crate) order: Vec<EdgeId>,
}

impl Removal {
    /// No wire is live.
    fn new(alloc: Global, graph: &Graph) -> Result<Removal, NoMemory>
        requires { IsValid graph.now }
        ensures { IfOk result (λ removal. IsRemoval graph.now removal) }
    {
        Ok(Removal {
            live: vec![in alloc; false; graph.wire_count() as usize]?,
            waits: vec![in alloc; 0; graph.edge_count() as usize]?,
            order: without_sources(alloc, graph)?,
        })
    }

    /// Makes a wire live, and lets the edge that waits for it wait for its next source.
    fn make_live(&mut self, graph: &Graph, w: WireId) -> Result<(), NoMemory>
        requires valid { IsValid graph.now }
        requires wire { w < length graph.now.wires }
        requires removal { IsRemoval graph.now self.old }
        requires made { is_among (live_behind graph.now self.old.order.items) w ≡ true }
        ensures removal { IfOk result (λ _. IsRemoval graph.now self.new) }
        ensures live { IfOk result (λ _. self.new.live.items ≡ slice_set self.old.live.items w true) }
        ensures order { IfOk result (λ _. Grows self.old.order.items self.new.order.items) }
    {
        match graph.consumer(w) {
            Some((k, i)) => self.make_source_live(graph, w, k, i as usize),
            None => {
                self.live[w.0 as usize] = true;
                Ok(())
            }
        }
    }

    /// Makes a source of an edge live, at its place.
    fn make_source_live(
        &mut self,
        graph: &Graph,
        w: WireId,
        k: EdgeId,
        i: usize,
    ) -> Result<(), NoMemory>
        requires valid { IsValid graph.now }
        requires source { source_at graph.now k i ≡ Some w }
        requires removal { IsRemoval graph.now self.old }
        requires made { is_among (live_behind graph.now self.old.order.items) w ≡ true }
        ensures removal { IfOk result (λ _. IsRemoval graph.now self.new) }
        ensures live { IfOk result (λ _. self.new.live.items ≡ slice_set self.old.live.items w true) }
        ensures order { IfOk result (λ _. Grows self.old.order.items self.new.order.items) }
    {
        self.live[w.0 as usize] = true;
        if self.waits[k.0 as usize] != i {
            return Ok(());
        }
        let sources = graph.edge(k).sources;
        let place = first_unlive(sources, &self.live, i);
        self.waits[k.0 as usize] = place;
        if place == sources.len() {
            self.order.push(k)?;
        }
        Ok(())
    }

    /// Makes wires live.
    fn make_all_live(&mut self, graph: &Graph, wires: &[WireId]) -> Result<(), NoMemory>
        requires valid { IsValid graph.now }
        requires wires { All (λ w. w < length graph.now.wires) wires.now }
        requires removal { IsRemoval graph.now self.old }
        requires made { All (λ w. is_among (live_behind graph.now self.old.order.items) w ≡ true) wires.now }
        ensures removal { IfOk result (λ _. IsRemoval graph.now self.new) }
        ensures live { IfOk result (λ _. AreLive self.new.live.items wires.now) }
        ensures stay { IfOk result (λ _. StayLive self.old.live.items self.new.live.items) }
        ensures order { IfOk result (λ _. Grows self.old.order.items self.new.order.items) }
    {
        for w in wires {
            self.make_live(graph, *w)?;
        }
        Ok(())
    }
}

/// The edges without sources.
fn without_sources(alloc: Global, graph: &Graph) -> Result<Vec<EdgeId>, NoMemory>
    ensures { IfOk result (λ order. IsSourceless graph.now (length graph.now.edges) order.items) }
{
    let mut order = Vec::new(alloc);
    for k in 0..graph.edge_count() {
        if graph.edge(EdgeId(k)).sources.is_empty() {
            order.push(EdgeId(k))?;
        }
    }
    Ok(order)
}

/// The first place from `from` on at which the wire is not live, or the number of wires.
fn first_unlive(wires: &[WireId], live: &[bool], from: usize) -> usize
    requires within { All (λ w. w < length live.now) wires.now }
    requires from { from ≤ length wires.now }
    ensures place { (from ≤ result) × (result ≤ length wires.now) }
    ensures passed { (i w : ℕ) → from ≤ i → i < result → slice_get wires.now i ≡ Some w → slice_get live.now w ≡ Some true }
    ensures stuck { (w : ℕ) → slice_get wires.now result ≡ Some w → slice_get live.now w ≡ Some false }
{
    for i in from..wires.len() {
        let w = wires[i];
        if !live[w.0 as usize] {
            return i;
        }
    }
    wires.len()
}

/// A topological order of the edges: they can be taken away in it one by one.
pub(crate) fn topological_order(alloc: Global, graph: &Graph) -> Result<Vec<EdgeId>, NoMemory>
    ensures { IfOk result (λ order. IsTopologicalOrder graph.now order.items) }
{
    let inputs = graph.inputs();
    let mut removal = Removal::new(alloc, graph)?;
    removal.make_all_live(graph, inputs)?;
    for j in 0..graph.edge_count() as usize {
        if j < removal.order.len() {
            let targets = graph.edge(removal.order[j]).targets;
            removal.make_all_live(graph, targets)?;
        }
    }
    Ok(removal.order)
}
