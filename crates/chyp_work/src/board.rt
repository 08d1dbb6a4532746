// A graph by numbers, that may be invalid between two calls.
ghost use Rattle.std.specs.Prelude.{◌≡◌, ℕ, ◌+◌, ◌<◌, ◌≤◌, All, List, [], ◌∷◌, ◌++◌, IfSome, None, OnOk, Some, length, map, slice_index, true, vec_capacity};
ghost use Rattle.std.specs.List.{zip};
ghost use Rattle.smallvec.specs.SmallVec.{with_item as with_port};
ghost use Rattle.chyp_term.proofs.Members.{Member};
ghost use Rattle.chyp_term.specs.Positions.{is_among, place_of};
ghost use Rattle.chyp_work.specs.Board.{HasPortsBelow, IsFiled, MayConsume, MayProduce, consumed, edge_of, edges_of, loose_wire, net, produced, renamed_by, sourced, targeted, wires_of, with_consumer, with_producer};
ghost use Rattle.chyp_store.specs.Items.{AreDistinct, item_at, without, without_all};
ghost use Rattle.chyp_match.specs.View.{IsIn};
ghost use Rattle.chyp_store.specs.Lists.{HasRows, list_of, room_of};
ghost use Rattle.chyp_work.specs.Net.{with_source, with_target};

use crate::end::End;
use chyp_base::{Name, NoMemory, Sort};
use chyp_graph::{EdgeId, Graph, WireId};
use chyp_store::{Lists, Store};
use smallvec::SmallVec;
use std::alloc::Global;

/// Ports of an edge: mostly few.
pub(crate) type Ports = SmallVec<WireId, 4>;

/// An edge.
#[derive(Drop)]
pub(crate) struct EdgeItem {
    pub(crate) name: Name,
    pub(crate) sources: Ports,
    pub(crate) targets: Ports,
}

/// A wire, with its two ends.
#[derive(Drop)]
pub(crate) struct WireItem {
    pub(crate) sort: Sort,
    pub(crate) producer: End,
    pub(crate) consumer: End,
}

/// The edges and the wires in order, with their lists by name and by sort.
#[derive(Drop)]
pub(crate) struct Board {
    pub(crate) edges: Store<EdgeItem>,
    pub(crate) wires: Store<WireItem>,
    pub(crate) inputs: Vec<WireId>,
    pub(crate) outputs: Vec<WireId>,
    pub(crate) named: Lists<EdgeId>,
    pub(crate) sorted: Lists<WireId>,
}

impl Board {
    /// Nothing. It takes no memory.
    pub(crate) fn new(alloc: Global) -> Board
        ensures graph { net result ≡ record { edges = []; wires = []; inputs = []; outputs = [] } }
        ensures edges { result.edges.items ≡ [] }
        ensures wires { result.wires.items ≡ [] }
        ensures filed { IsFiled result }
    {
        Board {
            edges: Store::new(alloc),
            wires: Store::new(alloc),
            inputs: Vec::new(alloc),
            outputs: Vec::new(alloc),
            named: Lists::new(alloc),
            sorted: Lists::new(alloc),
        }
    }

    /// Takes the memory for the wires and the edges of this graph. Where there is none, nothing that
    /// is shown has changed.
    pub(crate) fn reserve(&mut self, graph: &Graph) -> Result<(), NoMemory>
        ensures graph { net self.new ≡ net self.old }
        ensures ends { self.new.wires.items ≡ self.old.wires.items }
        ensures filed { IsFiled self.old → IsFiled self.new }
        ensures wires { OnOk result (length graph.now.wires ≤ self.new.wires.room) }
        ensures edges { OnOk result (length graph.now.edges ≤ self.new.edges.room) }
        ensures sorts { OnOk result (HasRows (λ sort. sort.name) graph.now.wires (length graph.now.wires) self.new.sorted) }
        ensures names { OnOk result (HasRows (λ edge. edge.name) graph.now.edges (length graph.now.edges) self.new.named) }
    {
        self.wires.reserve(graph.wire_count())?;
        self.edges.reserve(graph.edge_count())?;
        reserve_sorts(&mut self.sorted, graph)?;
        reserve_names(&mut self.named, graph)
    }

    /// Adds a wire, whose ends are still to be said, and answers its number. It takes no memory.
    pub(crate) fn add_wire(&mut self, sort: Sort) -> WireId
        requires filed { IsFiled self.old }
        requires room { 0 < self.old.wires.room }
        requires list { 0 < room_of sort.name self.old.sorted }
        ensures wires { self.new.wires.items ≡ self.old.wires.items ++ (result, loose_wire sort) ∷ [] }
        ensures fresh { item_at result self.old.wires.items ≡ None }
        ensures rest { self.new ≡ record self.old { wires = self.new.wires; sorted = self.new.sorted } }
        ensures filed { IsFiled self.new }
        ensures room { self.new.wires.room + 1 ≡ self.old.wires.room }
        ensures rooms { (n : List ℕ) → room_of n self.old.sorted ≤ room_of n self.new.sorted + 1 }
    {
        let w = self.wires.add(WireItem {
            sort,
            producer: End::Outside(0),
            consumer: End::Outside(0),
        });
        let item = self.wires.get(w).unwrap();
        self.sorted.push(&item.sort.name, WireId(w));
        WireId(w)
    }

    /// Adds an edge, and answers its number. It takes no memory.
    pub(crate) fn add_edge(&mut self, item: EdgeItem) -> EdgeId
        requires filed { IsFiled self.old }
        requires room { 0 < self.old.edges.room }
        requires list { 0 < room_of item.name self.old.named }
        ensures edges { self.new.edges.items ≡ self.old.edges.items ++ (result, item) ∷ [] }
        ensures fresh { item_at result self.old.edges.items ≡ None }
        ensures rest { self.new ≡ record self.old { edges = self.new.edges; named = self.new.named } }
        ensures filed { IsFiled self.new }
        ensures room { self.new.edges.room + 1 ≡ self.old.edges.room }
        ensures rooms { (n : List ℕ) → room_of n self.old.named ≤ room_of n self.new.named + 1 }
    {
        let k = self.edges.add(item);
        let item = self.edges.get(k).unwrap();
        self.named.push(&item.name, EdgeId(k));
        EdgeId(k)
    }

    /// Takes out the edge of this number.
    pub(crate) fn remove_edge(&mut self, k: EdgeId)
        requires filed { IsFiled self.old }
        requires there { IsIn k self.old.edges.items }
        ensures edges { self.new.edges.items ≡ without k self.old.edges.items }
        ensures rest { self.new ≡ record self.old { edges = self.new.edges; named = self.new.named } }
        ensures filed { IsFiled self.new }
        ensures room { self.new.edges.room ≡ self.old.edges.room }
        ensures rooms { (n : List ℕ) → room_of n self.old.named ≤ room_of n self.new.named }
    {
        self.edges.apart();
        let item = self.edges.remove(k.0).unwrap();
        let place = place_of_edge(self.named.get(&item.name), k);
        self.named.remove(&item.name, place);
    }

    /// Takes out the wire of this number.
    pub(crate) fn remove_wire(&mut self, w: WireId)
        requires filed { IsFiled self.old }
        requires there { IsIn w self.old.wires.items }
        ensures wires { self.new.wires.items ≡ without w self.old.wires.items }
        ensures rest { self.new ≡ record self.old { wires = self.new.wires; sorted = self.new.sorted } }
        ensures filed { IsFiled self.new }
        ensures room { self.new.wires.room ≡ self.old.wires.room }
        ensures rooms { (n : List ℕ) → room_of n self.old.sorted ≤ room_of n self.new.sorted }
    {
        self.wires.apart();
        let item = self.wires.remove(w.0).unwrap();
        let place = place_of_wire(self.sorted.get(&item.sort.name), w);
        self.sorted.remove(&item.sort.name, place);
    }

    /// Makes the wire the target of the edge at this place.
    pub(crate) fn set_target(&mut self, k: EdgeId, i: u32, w: WireId)
        requires there { IfSome (item_at k self.old.edges.items) (λ e. i < length e.targets.items) }
        ensures graph { net self.new ≡ with_target (net self.old) k i w }
        ensures rest { self.new ≡ record self.old { edges = self.new.edges } }
        ensures filed { IsFiled self.old → IsFiled self.new }
    {
        self.edges.apart();
        set_target_in(&mut self.edges, k, i, w);
    }

    /// Makes the wire the source of the edge at this place.
    pub(crate) fn set_source(&mut self, k: EdgeId, i: u32, w: WireId)
        requires there { IfSome (item_at k self.old.edges.items) (λ e. i < length e.sources.items) }
        ensures graph { net self.new ≡ with_source (net self.old) k i w }
        ensures rest { self.new ≡ record self.old { edges = self.new.edges } }
        ensures filed { IsFiled self.old → IsFiled self.new }
    {
        self.edges.apart();
        set_source_in(&mut self.edges, k, i, w);
    }

    /// What made the first wire makes the second one.
    pub(crate) fn reroute_producer(&mut self, from: WireId, to: WireId)
        requires from { IsIn from self.old.wires.items }
        requires to { IsIn to self.old.wires.items }
        requires end { IfSome (item_at from self.old.wires.items) (λ item. MayProduce self.old item.producer) }
        ensures graph { IfSome (item_at from self.old.wires.items) (λ item. net self.new ≡ with_producer (net self.old) item.producer to) }
        ensures at { IfSome (item_at from self.old.wires.items) (λ i. self.new.wires.items ≡ produced to i.producer self.old.wires.items) }
        ensures outputs { self.new.outputs ≡ self.old.outputs }
        ensures lists { (self.new.named ≡ self.old.named) × (self.new.sorted ≡ self.old.sorted) }
        ensures filed { IsFiled self.old → IsFiled self.new }
    {
        let end = self.wires.get(from.0).unwrap().producer;
        self.produce(end, to);
    }

    /// Makes the wire at this end.
    pub(crate) fn produce(&mut self, end: End, w: WireId)
        requires end { MayProduce self.old end }
        ensures graph { net self.new ≡ with_producer (net self.old) end w }
        ensures ends { self.new.wires.items ≡ produced w end self.old.wires.items }
        ensures outputs { self.new.outputs ≡ self.old.outputs }
        ensures lists { (self.new.named ≡ self.old.named) × (self.new.sorted ≡ self.old.sorted) }
        ensures filed { IsFiled self.old → IsFiled self.new }
    {
        self.wires.apart();
        match end {
            End::Outside(i) => {
                note_producer(&mut self.wires, w, End::Outside(i));
                self.inputs[i as usize] = w;
                return;
            }
            End::Port(k, i) => {
                note_producer(&mut self.wires, w, End::Port(k, i));
                self.set_target(k, i, w);
                return;
            }
        }
    }

    /// What used the first wire uses the second one.
    pub(crate) fn reroute_consumer(&mut self, from: WireId, to: WireId)
        requires from { IsIn from self.old.wires.items }
        requires to { IsIn to self.old.wires.items }
        requires end { IfSome (item_at from self.old.wires.items) (λ item. MayConsume self.old item.consumer) }
        ensures graph { IfSome (item_at from self.old.wires.items) (λ item. net self.new ≡ with_consumer (net self.old) item.consumer to) }
        ensures at { IfSome (item_at from self.old.wires.items) (λ i. self.new.wires.items ≡ consumed to i.consumer self.old.wires.items) }
        ensures inputs { self.new.inputs ≡ self.old.inputs }
        ensures lists { (self.new.named ≡ self.old.named) × (self.new.sorted ≡ self.old.sorted) }
        ensures filed { IsFiled self.old → IsFiled self.new }
    {
        let end = self.wires.get(from.0).unwrap().consumer;
        self.consume(end, to);
    }

    /// Uses the wire at this end.
    pub(crate) fn consume(&mut self, end: End, w: WireId)
        requires end { MayConsume self.old end }
        ensures graph { net self.new ≡ with_consumer (net self.old) end w }
        ensures ends { self.new.wires.items ≡ consumed w end self.old.wires.items }
        ensures inputs { self.new.inputs ≡ self.old.inputs }
        ensures lists { (self.new.named ≡ self.old.named) × (self.new.sorted ≡ self.old.sorted) }
        ensures filed { IsFiled self.old → IsFiled self.new }
    {
        self.wires.apart();
        match end {
            End::Outside(i) => {
                note_consumer(&mut self.wires, w, End::Outside(i));
                self.outputs[i as usize] = w;
                return;
            }
            End::Port(k, i) => {
                note_consumer(&mut self.wires, w, End::Port(k, i));
                self.set_source(k, i, w);
                return;
            }
        }
    }
}

/// Notes that this end makes the wire.
pub(crate) fn note_producer(wires: &mut Store<WireItem>, w: WireId, end: End)
    ensures items { wires.new.items ≡ produced w end wires.old.items }
    ensures rest { wires.new ≡ record wires.old { items = wires.new.items } }
{
    match wires.get_mut(w.0) {
        Some(item) => {
            item.producer = end;
            return;
        }
        None => return,
    }
}

/// Notes that this end uses the wire.
pub(crate) fn note_consumer(wires: &mut Store<WireItem>, w: WireId, end: End)
    ensures items { wires.new.items ≡ consumed w end wires.old.items }
    ensures rest { wires.new ≡ record wires.old { items = wires.new.items } }
{
    match wires.get_mut(w.0) {
        Some(item) => {
            item.consumer = end;
            return;
        }
        None => return,
    }
}

fn set_target_in(edges: &mut Store<EdgeItem>, k: EdgeId, i: u32, w: WireId)
    requires there { IfSome (item_at k edges.old.items) (λ e. i < length e.targets.items) }
    ensures items { edges.new.items ≡ targeted k i w edges.old.items }
    ensures rest { edges.new ≡ record edges.old { items = edges.new.items } }
{
    match edges.get_mut(k.0) {
        Some(item) => {
            set_port(&mut item.targets, i, w);
            return;
        }
        None => return,
    }
}

fn set_source_in(edges: &mut Store<EdgeItem>, k: EdgeId, i: u32, w: WireId)
    requires there { IfSome (item_at k edges.old.items) (λ e. i < length e.sources.items) }
    ensures items { edges.new.items ≡ sourced k i w edges.old.items }
    ensures rest { edges.new ≡ record edges.old { items = edges.new.items } }
{
    match edges.get_mut(k.0) {
        Some(item) => {
            set_port(&mut item.sources, i, w);
            return;
        }
        None => return,
    }
}

fn set_port(ports: &mut Ports, i: u32, w: WireId)
    requires { i < length ports.old.items }
    ensures { ports.new ≡ with_port ports.old i w }
{
    match ports.get_mut(i as usize) {
        Some(port) => {
            *port = w;
            return;
        }
        None => return,
    }
}

/// The place of a number that is in the list.
fn place_of_edge(list: &[EdgeId], k: EdgeId) -> usize
    requires { is_among list.now k ≡ true }
    ensures { place_of k list.now ≡ Some result }
{
    let mut at = 0;
    while at < list.len() {
        if list[at] == k {
            return at;
        }
        at += 1;
    }
    at
}

/// The place of a number that is in the list.
fn place_of_wire(list: &[WireId], w: WireId) -> usize
    requires { is_among list.now w ≡ true }
    ensures { place_of w list.now ≡ Some result }
{
    let mut at = 0;
    while at < list.len() {
        if list[at] == w {
            return at;
        }
        at += 1;
    }
    at
}

fn reserve_sorts(lists: &mut Lists<WireId>, graph: &Graph) -> Result<(), NoMemory>
    ensures kept { (n : List ℕ) → list_of n lists.new ≡ list_of n lists.old }
    ensures rows { OnOk result (HasRows (λ sort. sort.name) graph.now.wires (length graph.now.wires) lists.new) }
{
    for v in 0..graph.wire_count() {
        lists.reserve(
            &graph.wire_sort(WireId(v)).name,
            graph.wire_count() as usize,
        )?;
    }
    Ok(())
}

fn reserve_names(lists: &mut Lists<EdgeId>, graph: &Graph) -> Result<(), NoMemory>
    ensures kept { (n : List ℕ) → list_of n lists.new ≡ list_of n lists.old }
    ensures rows { OnOk result (HasRows (λ edge. edge.name) graph.now.edges (length graph.now.edges) lists.new) }
{
    for k in 0..graph.edge_count() {
        lists.reserve(graph.edge(EdgeId(k)).name, graph.edge_count() as usize)?;
    }
    Ok(())
}

/// Adds a wire of each sort, and notes their numbers. It takes no memory.
pub(crate) fn add_wires(board: &mut Board, sorts: Vec<Sort>, numbers: &mut Vec<WireId>)
    requires filed { IsFiled board.old }
    requires none { numbers.old.items ≡ [] }
    requires places { length sorts.items ≤ vec_capacity numbers.old }
    requires room { length sorts.items ≤ board.old.wires.room }
    requires rows { HasRows (λ sort. sort.name) sorts.items (length sorts.items) board.old.sorted }
    ensures wires { board.new.wires.items ≡ board.old.wires.items ++ zip numbers.new.items (map loose_wire sorts.items) }
    ensures count { length numbers.new.items ≡ length sorts.items }
    ensures rest { board.new ≡ record board.old { wires = board.new.wires; sorted = board.new.sorted } }
    ensures filed { IsFiled board.new }
{
    for sort in sorts {
        let w = board.add_wire(sort);
        numbers.push_reserved(w);
    }
}

/// The edge, whose ports are places in the list of wires, with these wires.
fn renamed(item: EdgeItem, wires: &[WireId]) -> EdgeItem
    requires { HasPortsBelow (length wires.now) item }
    ensures { edge_of result ≡ renamed_by wires.now item }
{
    let mut item = item;
    rename(item.sources.as_mut_slice(), wires);
    rename(item.targets.as_mut_slice(), wires);
    item
}

/// Puts the wire at each place in place of the place.
pub(crate) fn rename(places: &mut [WireId], wires: &[WireId])
    requires { All (λ w. w < length wires.now) places.old }
    ensures { places.new ≡ map (slice_index wires.now) places.old }
{
    for place in places.iter_mut() {
        *place = wires[place.0 as usize];
    }
}

/// Adds these edges, whose ports are places in the list of wires, and notes their numbers. It takes no
/// memory.
pub(crate) fn add_edges(
    board: &mut Board,
    items: Vec<EdgeItem>,
    wires: &[WireId],
    numbers: &mut Vec<EdgeId>,
)
    requires filed { IsFiled board.old }
    requires within { All (HasPortsBelow (length wires.now)) items.items }
    requires none { numbers.old.items ≡ [] }
    requires places { length items.items ≤ vec_capacity numbers.old }
    requires room { length items.items ≤ board.old.edges.room }
    requires rows { HasRows (λ item. item.name) items.items (length items.items) board.old.named }
    ensures edges { edges_of board.new.edges.items ≡ edges_of board.old.edges.items ++ zip numbers.new.items
        (map (renamed_by wires.now) items.items) }
    ensures count { length numbers.new.items ≡ length items.items }
    ensures rest { board.new ≡ record board.old { edges = board.new.edges; named = board.new.named } }
    ensures filed { IsFiled board.new }
{
    for item in items {
        let k = board.add_edge(renamed(item, wires));
        numbers.push_reserved(k);
    }
}

/// Takes out these edges.
pub(crate) fn remove_edges(board: &mut Board, images: &[EdgeId])
    requires filed { IsFiled board.old }
    requires there { (k : ℕ) → Member k images.now → IsIn k board.old.edges.items }
    requires apart { AreDistinct images.now }
    ensures edges { board.new.edges.items ≡ without_all images.now board.old.edges.items }
    ensures rest { board.new ≡ record board.old { edges = board.new.edges; named = board.new.named } }
    ensures filed { IsFiled board.new }
{
    for k in images {
        board.remove_edge(*k);
    }
}

/// Takes out these wires.
pub(crate) fn remove_wires(board: &mut Board, images: &[WireId])
    requires filed { IsFiled board.old }
    requires there { (w : ℕ) → Member w images.now → IsIn w board.old.wires.items }
    requires apart { AreDistinct images.now }
    ensures wires { board.new.wires.items ≡ without_all images.now board.old.wires.items }
    ensures rest { board.new ≡ record board.old { wires = board.new.wires; sorted = board.new.sorted } }
    ensures filed { IsFiled board.new }
{
    for w in images {
        board.remove_wire(*w);
    }
}
