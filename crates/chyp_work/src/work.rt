// Graphs that are rewritten in place.
ghost use Rattle.std.specs.Prelude.{◌≡◌, ◌+◌, ◌<◌, ◌^◌, ◌↔◌, All, Contains, IfOk, IfSome, IsNone, OnErr, OnOk, Some, [], length};
ghost use Rattle.chyp_graph.specs.Graph.{lent_edge};
ghost use Rattle.chyp_match.specs.View.{IsIn, IsSeen, named_in, net_of, sorted_in, source_in, target_in};
ghost use Rattle.chyp_pattern.specs.Occurrence.{IsOccurrence};
ghost use Rattle.chyp_pattern.specs.Replacement.{IsGraphRule, replaced};
ghost use Rattle.chyp_store.specs.Items.{item_at};
ghost use Rattle.chyp_work.specs.Net.{IsSound, plain, seen_of};
ghost use Rattle.chyp_work.specs.Step.{edge_places, wire_places};

use crate::board::Board;
use crate::end::End;
use crate::filling::board_of;
use crate::numbering::numbered_in;
use crate::plain::graph_of;
use crate::step::{Site, step_in};
use chyp_base::{Name, NoMemory, Sort};
use chyp_graph::{EdgeId, EdgeView, Graph, WireId};
use chyp_match::View;
use chyp_pattern::{Occurrence, Pattern};
use std::alloc::Global;
use std::marker::Model;

/// A graph that is rewritten in place, always valid: contracts see it by the numbers of its edges and
/// wires.
#[derive(Drop)]
pub struct Work {
    board: Board,
}

impl Model for Work {
    ghost use Rattle.chyp_match.specs.View.{Net};

    ghost Value = { Net };

    ghost use Rattle.chyp_work.specs.Board.{IsWork, net};

    ghost view = { λ w. net w.board };

    ghost invariant = { λ w. IsWork w.board };
}

impl Work {
    /// The empty graph. It takes no memory.
    pub fn empty(alloc: Global) -> Work
        ensures { result ≡ record { edges = []; wires = []; inputs = []; outputs = [] } }
    {
        Work {
            board: Board::new(alloc),
        }
    }

    /// The same graph, under numbers. It takes time and memory in proportion to the graph.
    ///
    /// # Errors
    ///
    /// `NoMemory` where the graph can't be kept.
    pub fn of(graph: &Graph) -> Result<Work, NoMemory>
        ensures { IfOk result (λ work. plain work ≡ graph.now) }
    {
        Ok(Work {
            board: board_of(graph)?,
        })
    }

    /// The plain graph, made anew: each wire has its place in the order as its number. It takes time and
    /// memory in proportion to the graph.
    ///
    /// # Errors
    ///
    /// `NoMemory` where the graph can't be kept.
    pub fn graph(&self) -> Result<Graph, NoMemory>
        ensures { IfOk result (λ graph. graph ≡ plain self.now) }
    {
        graph_of(&self.board)
    }

    /// The same occurrence by the numbers that its edges and wires have here, of one that names them by
    /// their places in the plain graph. It takes time and memory in proportion to the graph and to the
    /// occurrence.
    ///
    /// # Errors
    ///
    /// `NoMemory` where the occurrence can't be kept.
    pub fn numbered(&self, at: &Occurrence) -> Result<Occurrence, NoMemory>
        requires edges { All (λ k. k < length self.now.edges) at.now.edges }
        requires wires { All (λ w. w < length self.now.wires) at.now.wires }
        ensures edges_there { IfOk result (λ o. All (λ k. IsIn k self.now.edges) o.edges) }
        ensures wires_there { IfOk result (λ o. All (λ w. IsIn w self.now.wires) o.wires) }
        ensures edges { IfOk result (λ o. edge_places self.now o.edges ≡ at.now.edges) }
        ensures wires { IfOk result (λ o. wire_places self.now o.wires ≡ at.now.wires) }
    {
        numbered_in(&self.board, at)
    }

    /// Replaces the occurrence of the left side by the right side: the pushout step of rewriting graphs
    /// (Bonchi, Gadducci, Kissinger, Sobociński and Zanasi, String Diagram Rewrite Theory II). The
    /// occurrence names edges and wires by the numbers that they have here, and what stays keeps its
    /// number. All memory is taken first.
    ///
    /// It takes time in proportion to the two sides and, for each edge and each wire that goes, to the
    /// list of those of its name or sort; the rest of the graph isn't walked. The memory is that of the
    /// right side and of the inputs and outputs of the left side.
    ///
    /// # Errors
    ///
    /// `NoMemory` where the right side can't be kept; the graph and its numbers are then as before.
    pub fn step(&mut self, left: &Pattern, right: &Graph, at: &Occurrence) -> Result<(), NoMemory>
        requires rule { IsGraphRule left.now.graph right.now }
        requires edges { All (λ k. IsIn k self.old.edges) at.now.edges }
        requires wires { All (λ w. IsIn w self.old.wires) at.now.wires }
        requires occurrence { IsOccurrence left.now.graph (plain self.old) (edge_places self.old at.now.edges)
            (wire_places self.old at.now.wires) }
        requires few_wires { length self.old.wires + length right.now.wires < 2 ^ 31 }
        requires few_edges { length self.old.edges + length right.now.edges < 2 ^ 31 }
        ensures step { OnOk result (plain self.new ≡ replaced (plain self.old) left.now.graph right.now (edge_places self.old at.now.edges)
            (wire_places self.old at.now.wires)) }
        ensures kept { OnErr result (self.new ≡ self.old) }
    {
        let site = Site {
            left: left.graph(),
            right,
            at,
        };
        step_in(&mut self.board, &site)
    }

    /// Every such graph is valid.
    pub(crate) fn sound(&self)
        ensures sound { IsSound self.now }
        ensures shown { net_of (seen_of self.now) ≡ self.now }
        ensures seen { IsSeen (seen_of self.now) }
    {
        let _ = &self.board;
    }

    /// The edge of this number.
    pub(crate) fn edge_at(&self, k: EdgeId) -> EdgeView<'_>
        requires { IsIn k self.now.edges }
        ensures { item_at k self.now.edges ≡ Some (lent_edge result) }
    {
        let item = self.board.edges.get(k.0).unwrap();
        EdgeView {
            name: &item.name,
            sources: item.sources.as_slice(),
            targets: item.targets.as_slice(),
        }
    }

    /// The sort of the wire of this number.
    pub(crate) fn sort_at(&self, w: WireId) -> &Sort
        requires { IsIn w self.now.wires }
        ensures { item_at w self.now.wires ≡ Some result.now }
    {
        let item = self.board.wires.get(w.0).unwrap();
        &item.sort
    }

    /// The edge that makes the wire.
    pub(crate) fn producer_at(&self, w: WireId) -> Option<(EdgeId, u32)>
        requires { IsIn w self.now.wires }
        ensures port { IfSome result (λ port. target_in self.now port.0 port.1 ≡ Some w) }
        ensures input { IsNone result ↔ Contains self.now.inputs w }
    {
        let item = self.board.wires.get(w.0).unwrap();
        match item.producer {
            End::Outside(_) => None,
            End::Port(k, i) => Some((k, i)),
        }
    }

    /// The edge that consumes the wire.
    pub(crate) fn consumer_at(&self, w: WireId) -> Option<(EdgeId, u32)>
        requires { IsIn w self.now.wires }
        ensures port { IfSome result (λ port. source_in self.now port.0 port.1 ≡ Some w) }
        ensures output { IsNone result ↔ Contains self.now.outputs w }
    {
        let item = self.board.wires.get(w.0).unwrap();
        match item.consumer {
            End::Outside(_) => None,
            End::Port(k, i) => Some((k, i)),
        }
    }

    /// The edges of this name, in order.
    pub(crate) fn named_at(&self, name: &Name) -> &[EdgeId]
        ensures { result.now ≡ named_in self.now name.now }
    {
        self.board.named.get(name)
    }

    /// The wires of this sort, in order.
    pub(crate) fn wires_at(&self, sort: &Sort) -> &[WireId]
        ensures { result.now ≡ sorted_in self.now sort.now.name }
    {
        self.board.sorted.get(&sort.name)
    }

    /// The inputs, in order.
    pub(crate) fn inputs_at(&self) -> &[WireId]
        ensures { result.now ≡ self.now.inputs }
    {
        &self.board.inputs
    }

    /// The outputs, in order.
    pub(crate) fn outputs_at(&self) -> &[WireId]
        ensures { result.now ≡ self.now.outputs }
    {
        &self.board.outputs
    }

    /// A number that is above those of all edges.
    pub(crate) fn edges_below(&self) -> u32
        ensures { All (λ e. e.0 < result) self.now.edges }
    {
        self.board.edges.bound()
    }

    /// A number that is above those of all wires.
    pub(crate) fn wires_below(&self) -> u32
        ensures { All (λ e. e.0 < result) self.now.wires }
    {
        self.board.wires.bound()
    }
}

impl View for Work {
    ghost seen = { seen_of };

    fn edge(&self, k: EdgeId) -> EdgeView<'_> {
        self.sound();
        self.edge_at(k)
    }

    fn wire_sort(&self, w: WireId) -> &Sort {
        self.sound();
        self.sort_at(w)
    }

    fn producer(&self, w: WireId) -> Option<(EdgeId, u32)> {
        self.sound();
        self.producer_at(w)
    }

    fn consumer(&self, w: WireId) -> Option<(EdgeId, u32)> {
        self.sound();
        self.consumer_at(w)
    }

    fn inputs(&self) -> &[WireId] {
        self.sound();
        self.inputs_at()
    }

    fn outputs(&self) -> &[WireId] {
        self.sound();
        self.outputs_at()
    }

    fn named(&self, name: &Name) -> &[EdgeId] {
        self.sound();
        self.named_at(name)
    }

    fn wires_of(&self, sort: &Sort) -> &[WireId] {
        self.sound();
        self.wires_at(sort)
    }

    fn edge_bound(&self) -> u32 {
        self.sound();
        self.edges_below()
    }

    fn wire_bound(&self) -> u32 {
        self.sound();
        self.wires_below()
    }
}
