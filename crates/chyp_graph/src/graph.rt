// Graphs.
ghost use Rattle.std.specs.Prelude.{All, ◌≡◌, ℕ, ◌+◌, ◌<◌, ◌^◌, ◌↔◌, ◌++◌, Contains, IfOk, IfSome, IsNone, Some, length, map, slice_get, slice_index};
ghost use Rattle.chyp_term.specs.Morphism.{IsTyped};
ghost use Rattle.chyp_term.specs.Perm.{permuted};
ghost use Rattle.chyp_term.specs.Positions.{place_of};
ghost use Rattle.chyp_term.specs.Measure.{size_of};
ghost use Rattle.chyp_term.specs.Term.{morphism_of};
ghost use Rattle.chyp_graph.specs.Composition.{beside_graph, inner_wires, then_graph};
ghost use Rattle.chyp_graph.specs.Graph.{lent_edge, source_at, target_at};
ghost use Rattle.chyp_graph.specs.GraphOf.{graph_of};
ghost use Rattle.chyp_graph.specs.Joining.{AreApart, AreJoinedAt, numbers_behind};
ghost use Rattle.chyp_graph.specs.PlainGraph.{PlainGraph, input_sorts, output_sorts};
ghost use Rattle.chyp_graph.specs.Removal.{IsTopologicalOrder};
ghost use Rattle.chyp_graph.specs.Rounds.{AreRounds};
ghost use Rattle.chyp_graph.specs.Validity.{IsValid};

use crate::draft::{Draft, new_wires};
use crate::levels::rounds_in;
use crate::port_table::{Port, table_of};
use crate::removal::topological_order;
use crate::renumber::{copied_edges, copied_wires, push_edges, push_wires};
use crate::side::Side;
use crate::{EdgeId, EdgePart, EdgeParts, EdgeView, WireId, WireIds};
use chyp_base::{NoMemory, Sort, Sorts};
use chyp_term::Term;
use std::alloc::Global;
use std::marker::Model;

/// A graph of a string diagram, always valid: seen by contracts as its plain graph.
#[derive(Debug, Drop)]
pub struct Graph {
    wires: Vec<Sort>,
    edges: Vec<EdgePart>,
    inputs: Vec<WireId>,
    outputs: Vec<WireId>,
    producers: Vec<Port>,
    consumers: Vec<Port>,
}

impl Model for Graph {
    ghost use Rattle.chyp_graph.specs.PlainGraph.{PlainGraph};
    ghost use Rattle.chyp_graph.specs.Graph.{IsKept};

    ghost Value = { PlainGraph };

    ghost view = { λ g. record { wires = g.wires.items; edges = g.edges.items; inputs = g.inputs.items; outputs = g.outputs.items } };

    ghost invariant = { λ g. IsKept
        (record { wires = g.wires.items; edges = g.edges.items; inputs = g.inputs.items; outputs = g.outputs.items })
        g.producers.items
        g.consumers.items };
}

impl Graph {
    /// The graph of these four lists, which are dropped where there is no memory.
    ///
    /// # Errors
    ///
    /// `NoMemory` where the graph can't be kept.
    pub fn of_parts(
        wires: Sorts,
        edges: EdgeParts,
        inputs: WireIds,
        outputs: WireIds,
    ) -> Result<Graph, NoMemory>
        requires valid { IsValid (record { wires = wires; edges = edges; inputs = inputs; outputs = outputs }) }
        requires few_wires { length wires < 2 ^ 31 }
        requires few_edges { length edges < 2 ^ 31 }
        ensures { IfOk result (λ graph. graph ≡ record { wires = wires; edges = edges; inputs = inputs; outputs = outputs }) }
    {
        let wires = wires.into_vec()?;
        let edges = edges.into_vec();
        let alloc = *wires.allocator();
        let producers = table_of(alloc, wires.len(), &edges, Side::Targets)?;
        let consumers = table_of(alloc, wires.len(), &edges, Side::Sources)?;
        Ok(Graph {
            wires,
            edges,
            inputs: inputs.into_vec(),
            outputs: outputs.into_vec(),
            producers,
            consumers,
        })
    }

    /// The graph of a term. It takes time and memory in proportion to the size of the term, and goes
    /// as deep as the term.
    ///
    /// # Errors
    ///
    /// `NoMemory` where the graph can't be kept.
    pub fn of_term(alloc: Global, term: &Term) -> Result<Graph, NoMemory>
        requires typed { IsTyped (morphism_of term.now) }
        requires small { size_of (morphism_of term.now) < 2 ^ 31 }
        ensures { IfOk result (λ graph. graph ≡ graph_of (morphism_of term.now)) }
    {
        let mut draft = Draft::new(alloc);
        draft.place(term)?;
        Graph::of_parts(
            Sorts::from_vec(draft.wires),
            EdgeParts::from_vec(draft.edges),
            WireIds::from_vec(draft.inputs),
            WireIds::from_vec(draft.outputs),
        )
    }

    /// This graph and then the next, whose inputs are the outputs of this one.
    ///
    /// # Errors
    ///
    /// `NoMemory` where the graph can't be kept.
    pub fn then(&self, next: &Graph) -> Result<Graph, NoMemory>
        requires middle { output_sorts self.now ≡ input_sorts next.now }
        requires few_wires { length self.now.wires + length next.now.wires < 2 ^ 31 }
        requires few_edges { length self.now.edges + length next.now.edges < 2 ^ 31 }
        ensures { IfOk result (λ graph. graph ≡ then_graph self.now next.now) }
    {
        let mut wires = copied_wires(&self.wires)?;
        let alloc = *self.wires.allocator();
        let at_inputs = at_inputs(alloc, next.wires.len(), &next.inputs, &self.outputs)?;
        let numbers = next.joined_numbers(&mut wires, &at_inputs)?;
        let mut edges = copied_edges(&self.edges)?;
        push_edges(&mut edges, &next.edges, &numbers)?;
        let inputs = Vec::from_slice(alloc, &self.inputs)?;
        let mut outputs = Vec::new(alloc);
        push_wires(&mut outputs, &next.outputs, &numbers)?;
        Graph::of_parts(
            Sorts::from_vec(wires),
            EdgeParts::from_vec(edges),
            WireIds::from_vec(inputs),
            WireIds::from_vec(outputs),
        )
    }

    /// This graph beside the other one.
    ///
    /// # Errors
    ///
    /// `NoMemory` where the graph can't be kept.
    pub fn beside(&self, other: &Graph) -> Result<Graph, NoMemory>
        requires few_wires { length self.now.wires + length other.now.wires < 2 ^ 31 }
        requires few_edges { length self.now.edges + length other.now.edges < 2 ^ 31 }
        ensures { IfOk result (λ graph. graph ≡ beside_graph self.now other.now) }
    {
        let mut wires = copied_wires(&self.wires)?;
        let numbers = new_wires(&mut wires, &other.wires)?;
        let mut edges = copied_edges(&self.edges)?;
        push_edges(&mut edges, &other.edges, &numbers)?;
        let alloc = *self.wires.allocator();
        let mut inputs = Vec::from_slice(alloc, &self.inputs)?;
        push_wires(&mut inputs, &other.inputs, &numbers)?;
        let mut outputs = Vec::from_slice(alloc, &self.outputs)?;
        push_wires(&mut outputs, &other.outputs, &numbers)?;
        Graph::of_parts(
            Sorts::from_vec(wires),
            EdgeParts::from_vec(edges),
            WireIds::from_vec(inputs),
            WireIds::from_vec(outputs),
        )
    }

    /// The numbers of the wires behind a graph with the given wires, where `at_inputs` has those of
    /// the inputs; the other wires are added to the given ones.
    fn joined_numbers(
        &self,
        wires: &mut Vec<Sort>,
        at_inputs: &[WireId],
    ) -> Result<Vec<WireId>, NoMemory>
        requires few { length wires.old.items + length self.now.wires < 2 ^ 31 }
        requires size { length at_inputs.now ≡ length self.now.wires }
        ensures numbers { IfOk result (λ numbers. numbers.items ≡ numbers_behind (length wires.old.items) at_inputs.now self.now) }
        ensures wires { IfOk result (λ _. wires.new.items ≡ wires.old.items ++ permuted self.now.wires (inner_wires self.now)) }
    {
        let mut numbers = Vec::with_capacity(*wires.allocator(), self.wires.len())?;
        for w in 0..self.wire_count() {
            if self.producer(WireId(w)).is_none() {
                numbers.push(at_inputs[w as usize])?;
            } else {
                numbers.push(WireId(wires.len() as u32))?;
                wires.push(self.wire_sort(WireId(w)).share()?)?;
            }
        }
        Ok(numbers)
    }

    /// The round of each edge, from 1: that in which it is taken away, where each round takes away the
    /// edges all of whose sources are inputs or targets of edges taken away in earlier rounds. It
    /// takes time and memory in proportion to the graph.
    ///
    /// # Errors
    ///
    /// `NoMemory` where the rounds can't be kept.
    pub fn rounds(&self) -> Result<Vec<u32>, NoMemory>
        ensures { IfOk result (λ rounds. AreRounds self.now rounds.items) }
    {
        let alloc = *self.wires.allocator();
        let order = topological_order(alloc, self)?;
        rounds_in(alloc, self, &order)
    }

    /// The edges in topological order: each comes after those that make its sources. It takes time and
    /// memory in proportion to the graph.
    ///
    /// # Errors
    ///
    /// `NoMemory` where the order can't be kept.
    pub fn topological_order(&self) -> Result<Vec<EdgeId>, NoMemory>
        ensures { IfOk result (λ order. IsTopologicalOrder self.now order.items) }
    {
        topological_order(*self.wires.allocator(), self)
    }

    /// Every graph is valid, with fewer than 2^31 edges and as many wires: a call brings a proof this
    /// fact, and does nothing when it runs.
    pub fn valid(&self)
        ensures valid { IsValid self.now }
        ensures few_edges { length self.now.edges < 2 ^ 31 }
        ensures few_wires { length self.now.wires < 2 ^ 31 }
    {
        let _ = &self.edges;
    }

    /// The allocator that it was made with.
    pub fn allocator(&self) -> Global {
        *self.wires.allocator()
    }

    /// The number of edges.
    pub fn edge_count(&self) -> u32
        ensures count { result ≡ length self.now.edges }
        ensures few { result < 2 ^ 31 }
    {
        self.edges.len() as u32
    }

    /// The number of wires.
    pub fn wire_count(&self) -> u32
        ensures count { result ≡ length self.now.wires }
        ensures few { result < 2 ^ 31 }
    {
        self.wires.len() as u32
    }

    /// The edge of this number.
    pub fn edge(&self, k: EdgeId) -> EdgeView<'_>
        requires { k < length self.now.edges }
        ensures { slice_get self.now.edges k ≡ Some (lent_edge result) }
    {
        let edge = &self.edges[k.0 as usize];
        EdgeView {
            name: &edge.name,
            sources: edge.sources.as_slice(),
            targets: edge.targets.as_slice(),
        }
    }

    /// The sort of the wire of this number.
    pub fn wire_sort(&self, w: WireId) -> &Sort
        requires { w < length self.now.wires }
        ensures { slice_get self.now.wires w ≡ Some result.now }
    {
        &self.wires[w.0 as usize]
    }

    /// The edge that makes the wire, and the wire's place among its targets; None exactly for an
    /// input.
    pub fn producer(&self, w: WireId) -> Option<(EdgeId, u32)>
        requires { w < length self.now.wires }
        ensures port { IfSome result (λ port. target_at self.now port.0 port.1 ≡ Some w) }
        ensures input { IsNone result ↔ Contains self.now.inputs w }
    {
        self.producers[w.0 as usize]
    }

    /// The edge that consumes the wire, and the wire's place among its sources; None exactly for an
    /// output.
    pub fn consumer(&self, w: WireId) -> Option<(EdgeId, u32)>
        requires { w < length self.now.wires }
        ensures port { IfSome result (λ port. source_at self.now port.0 port.1 ≡ Some w) }
        ensures output { IsNone result ↔ Contains self.now.outputs w }
    {
        self.consumers[w.0 as usize]
    }

    /// The inputs, in order.
    pub fn inputs(&self) -> &[WireId]
        ensures inputs { result.now ≡ self.now.inputs }
        ensures valid { IsValid self.now }
    {
        &self.inputs
    }

    /// The outputs, in order.
    pub fn outputs(&self) -> &[WireId]
        ensures outputs { result.now ≡ self.now.outputs }
        ensures valid { IsValid self.now }
    {
        &self.outputs
    }
}

/// The numbers of the inputs of a graph with this many wires: those of the outputs that they join.
fn at_inputs(
    alloc: Global,
    wires: usize,
    inputs: &[WireId],
    outputs: &[WireId],
) -> Result<Vec<WireId>, NoMemory>
    requires same { length inputs.now ≡ length outputs.now }
    requires within { All (λ w. w < wires) inputs.now }
    requires apart { AreApart inputs.now }
    ensures size { IfOk result (λ numbers. length numbers.items ≡ wires) }
    ensures numbers { IfOk result (λ numbers. AreJoinedAt inputs.now outputs.now numbers.items) }
{
    let mut numbers = vec![in alloc; WireId(0); wires]?;
    for (j, wire) in inputs.iter().enumerate() {
        numbers[wire.0 as usize] = outputs[j];
    }
    Ok(numbers)
}
