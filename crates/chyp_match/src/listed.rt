// Graphs with lists of their edges by name and of their wires by sort.
ghost use Rattle.std.specs.Prelude.{◌≡◌, IfOk};
ghost use Rattle.chyp_match.specs.Lists.{list_of};
ghost use Rattle.chyp_match.specs.Listed.{edges_named, wires_sorted};
ghost use Rattle.chyp_match.specs.View.{AreNumbered, IsSeen, by_places, net_by_places, net_of};

use crate::View;
use crate::lists::Lists;
use chyp_base::{Name, NoMemory, Sort};
use chyp_graph::{EdgeId, EdgeView, Graph, WireId};
use std::alloc::Global;
use std::marker::Model;

/// A graph with lists of its edges by name and of its wires by sort: contracts see it as the plain
/// graph.
#[derive(Drop)]
pub struct Listed<'a> {
    graph: &'a Graph,
    named: Lists<EdgeId>,
    of_sort: Lists<WireId>,
}

impl<'a> Model for Listed<'a> {
    ghost use Rattle.chyp_graph.specs.PlainGraph.{PlainGraph};
    ghost use Rattle.chyp_match.specs.Listed.{AreLists};

    ghost Value = { PlainGraph };

    ghost view = { λ s. s.graph.now };

    ghost invariant = { λ s. AreLists s.graph.now s.named s.of_sort };
}

impl<'a> Listed<'a> {
    /// The graph with its lists, in time and memory in proportion to it.
    ///
    /// # Errors
    ///
    /// `NoMemory` where the lists can't be kept.
    pub fn of(alloc: Global, graph: &'a Graph) -> Result<Listed<'a>, NoMemory>
        ensures { IfOk result (λ listed. listed ≡ graph.now) }
    {
        let named = edges_by_name(alloc, graph)?;
        let of_sort = wires_by_sort(alloc, graph)?;
        Ok(Listed {
            graph,
            named,
            of_sort,
        })
    }

    /// The graph.
    pub fn graph(&self) -> &'a Graph
        ensures { result.now ≡ self.now }
    {
        self.graph
    }

    /// The edges of this name, in order.
    pub fn edges_named(&self, name: &Name) -> &[EdgeId]
        ensures { result.now ≡ edges_named self.now name.now }
    {
        self.named.get(name)
    }

    /// The wires of this sort, in order.
    pub fn wires_sorted(&self, sort: &Sort) -> &[WireId]
        ensures { result.now ≡ wires_sorted self.now sort.now.name }
    {
        self.of_sort.get(&sort.name)
    }
}

impl Listed<'_> {
    /// By places it is the graph itself: a call brings a proof this fact, and does nothing when it
    /// runs.
    fn by_places(&self)
        ensures net { net_of (by_places self.now) ≡ net_by_places self.now }
        ensures edges { AreNumbered self.now.edges }
        ensures wires { AreNumbered self.now.wires }
        ensures seen { IsSeen (by_places self.now) }
    {
        self.graph.valid();
    }
}

impl View for Listed<'_> {
    ghost seen = { by_places };

    fn edge(&self, k: EdgeId) -> EdgeView<'_> {
        self.by_places();
        self.graph.edge(k)
    }

    fn wire_sort(&self, w: WireId) -> &Sort {
        self.by_places();
        self.graph.wire_sort(w)
    }

    fn producer(&self, w: WireId) -> Option<(EdgeId, u32)> {
        self.by_places();
        self.graph.producer(w)
    }

    fn consumer(&self, w: WireId) -> Option<(EdgeId, u32)> {
        self.by_places();
        self.graph.consumer(w)
    }

    fn inputs(&self) -> &[WireId] {
        self.by_places();
        self.graph.inputs()
    }

    fn outputs(&self) -> &[WireId] {
        self.by_places();
        self.graph.outputs()
    }

    fn named(&self, name: &Name) -> &[EdgeId] {
        self.by_places();
        self.edges_named(name)
    }

    fn wires_of(&self, sort: &Sort) -> &[WireId] {
        self.by_places();
        self.wires_sorted(sort)
    }

    fn edge_bound(&self) -> u32 {
        self.by_places();
        self.graph.edge_count()
    }

    fn wire_bound(&self) -> u32 {
        self.by_places();
        self.graph.wire_count()
    }
}

/// Lists of the edges of a graph by their names.
fn edges_by_name(alloc: Global, graph: &Graph) -> Result<Lists<EdgeId>, NoMemory>
    ensures { IfOk result (λ lists. (name : _) → list_of name lists ≡ edges_named graph.now name) }
{
    let mut lists = Lists::new(alloc);
    for k in 0..graph.edge_count() {
        lists.add(graph.edge(EdgeId(k)).name, EdgeId(k))?;
    }
    Ok(lists)
}

/// Lists of the wires of a graph by their sorts.
fn wires_by_sort(alloc: Global, graph: &Graph) -> Result<Lists<WireId>, NoMemory>
    ensures { IfOk result (λ lists. (name : _) → list_of name lists ≡ wires_sorted graph.now name) }
{
    let mut lists = Lists::new(alloc);
    for w in 0..graph.wire_count() {
        lists.add(&graph.wire_sort(WireId(w)).name, WireId(w))?;
    }
    Ok(lists)
}
