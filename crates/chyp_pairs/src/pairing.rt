// Partial maps between two graphs.
ghost use Rattle.std.specs.Prelude.{◌≡◌, ◌<◌, ◌≤◌, ◌+◌, ◌-◌, ◌++◌, [], ◌∷◌, IfOk, None, Some, length, slice_get, take};
ghost use Rattle.chyp_pairs.specs.Pairs.{IsMatching, Pairs, edge_back, edge_there, image, wire_back, wire_there};
ghost use Rattle.chyp_pairs.specs.declared.pair.Pair.TheVariants.{Edges, Wires};

use crate::Pair;
use chyp_base::NoMemory;
use chyp_graph::{EdgeId, WireId};
use std::alloc::Global;
use std::marker::Model;

/// Pairs of items of two graphs in the order in which they were made, no item in two of them, with
/// tables of the images of each item.
#[derive(Debug, Drop)]
pub struct Pairing {
    wires: Vec<Option<WireId>>,
    wires_back: Vec<Option<WireId>>,
    edges: Vec<Option<EdgeId>>,
    edges_back: Vec<Option<EdgeId>>,
    trail: Vec<Pair>,
}

impl Model for Pairing {
    ghost use Rattle.std.specs.Prelude.{length};
    ghost use Rattle.std.specs.Vec.{vec_capacity};
    ghost use Rattle.chyp_pairs.specs.Pairs.{Pairs};
    ghost use Rattle.chyp_pairs.specs.Pairing.{IsKept};

    ghost Value = { Pairs };

    ghost view = { λ s. record { pairs = s.trail.items; edges = length s.edges.items; wires = length s.wires.items } };

    ghost invariant = { λ s. IsKept
        s.trail.items
        s.wires.items
        s.wires_back.items
        s.edges.items
        s.edges_back.items
        (vec_capacity s.trail) };
}

impl Pairing {
    /// No pairs, of graphs of at most these many edges and wires.
    ///
    /// # Errors
    ///
    /// `NoMemory` where the tables can't be kept.
    pub fn new(alloc: Global, edges: u32, wires: u32) -> Result<Pairing, NoMemory>
        ensures { IfOk result (λ pairing. pairing ≡ record { pairs = []; edges = edges; wires = wires }) }
    {
        let room = edges as usize + wires as usize;
        Ok(Pairing {
            wires: vec![in alloc; None; wires as usize]?,
            wires_back: vec![in alloc; None; wires as usize]?,
            edges: vec![in alloc; None; edges as usize]?,
            edges_back: vec![in alloc; None; edges as usize]?,
            trail: Vec::with_capacity(alloc, room)?,
        })
    }

    /// The number of pairs.
    pub fn len(&self) -> usize
        ensures count { result ≡ length self.now.pairs }
        ensures bound { result ≤ self.now.edges + self.now.wires }
        ensures matching { IsMatching self.now.pairs }
    {
        self.trail.len()
    }

    /// The pair at a place.
    pub fn pair(&self, at: usize) -> Pair
        requires { at < length self.now.pairs }
        ensures { slice_get self.now.pairs at ≡ Some result }
    {
        self.trail[at]
    }

    /// The wire that this one goes to.
    pub fn wire(&self, v: WireId) -> Option<WireId>
        requires { v < self.now.wires }
        ensures image { result ≡ image wire_there self.now.pairs v }
        ensures matching { IsMatching self.now.pairs }
    {
        self.wires[v.0 as usize]
    }

    /// The wire that goes to this one.
    pub fn wire_back(&self, w: WireId) -> Option<WireId>
        requires { w < self.now.wires }
        ensures image { result ≡ image wire_back self.now.pairs w }
        ensures matching { IsMatching self.now.pairs }
    {
        self.wires_back[w.0 as usize]
    }

    /// The edge that this one goes to.
    pub fn edge(&self, e: EdgeId) -> Option<EdgeId>
        requires { e < self.now.edges }
        ensures image { result ≡ image edge_there self.now.pairs e }
        ensures matching { IsMatching self.now.pairs }
    {
        self.edges[e.0 as usize]
    }

    /// The edge that goes to this one.
    pub fn edge_back(&self, f: EdgeId) -> Option<EdgeId>
        requires { f < self.now.edges }
        ensures image { result ≡ image edge_back self.now.pairs f }
        ensures matching { IsMatching self.now.pairs }
    {
        self.edges_back[f.0 as usize]
    }

    /// Adds a pair of wires of which neither is in a pair.
    pub fn add_wires(&mut self, v: WireId, w: WireId)
        requires there { v < self.old.wires }
        requires within { w < self.old.wires }
        requires new { image wire_there self.old.pairs v ≡ None }
        requires untaken { image wire_back self.old.pairs w ≡ None }
        ensures { self.new ≡ record self.old { pairs = self.old.pairs ++ Wires v w ∷ [] } }
    {
        self.wires[v.0 as usize] = Some(w);
        self.wires_back[w.0 as usize] = Some(v);
        self.trail.push(Pair::Wires(v, w)).unwrap();
    }

    /// Adds a pair of edges of which neither is in a pair.
    pub fn add_edges(&mut self, e: EdgeId, f: EdgeId)
        requires there { e < self.old.edges }
        requires within { f < self.old.edges }
        requires new { image edge_there self.old.pairs e ≡ None }
        requires untaken { image edge_back self.old.pairs f ≡ None }
        ensures { self.new ≡ record self.old { pairs = self.old.pairs ++ Edges e f ∷ [] } }
    {
        self.edges[e.0 as usize] = Some(f);
        self.edges_back[f.0 as usize] = Some(e);
        self.trail.push(Pair::Edges(e, f)).unwrap();
    }

    /// Takes the last pair away.
    fn drop_last(&mut self)
        requires { 0 < length self.old.pairs }
        ensures { self.new ≡ record self.old { pairs = take (length self.old.pairs - 1) self.old.pairs } }
    {
        let Some(last) = self.trail.pop() else {
            return;
        };
        match last {
            Pair::Wires(v, w) => {
                self.wires[v.0 as usize] = None;
                self.wires_back[w.0 as usize] = None;
            }
            Pair::Edges(e, f) => {
                self.edges[e.0 as usize] = None;
                self.edges_back[f.0 as usize] = None;
            }
        }
    }

    /// Takes away all pairs but the first ones, as many as are said.
    pub fn undo(&mut self, count: usize)
        requires { count ≤ length self.old.pairs }
        ensures { self.new ≡ record self.old { pairs = take count self.old.pairs } }
    {
        while self.len() > count {
            self.drop_last();
        }
    }
}
