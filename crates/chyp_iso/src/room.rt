// Pairs and lists of images to compare graphs with.
ghost use Rattle.std.specs.Prelude.{◌≡◌, IfOk, length, take};
ghost use Rattle.std.specs.Bool.{MatchBool};
ghost use Rattle.chyp_graph.specs.Isomorphism.{Isomorphic};
ghost use Rattle.chyp_iso.specs.IsIsomorphism.{IsIsomorphism};
ghost use Rattle.chyp_pairs.specs.Pairs.{Pairs};
ghost use Rattle.chyp_iso.specs.Scratch.{HasRoomFor, Room};

use crate::Iso;
use crate::find::find;
use chyp_base::NoMemory;
use chyp_graph::{EdgeId, Graph, WireId};
use chyp_pairs::Pairing;
use std::alloc::Global;
use std::marker::Model;

/// A list of pairs, which is empty between two comparisons, and lists for the images of edges and of
/// wires.
#[derive(Debug, Drop)]
pub(crate) struct Room {
    pairing: Pairing,
    edges: Vec<EdgeId>,
    wires: Vec<WireId>,
}

impl Model for Room {
    ghost use Rattle.chyp_iso.specs.Scratch.{IsBlank, Room};

    ghost Value = { Room };

    ghost view = { λ s. record {
      edges = s.pairing.edges;
      wires = s.pairing.wires;
      edge_images = s.edges.items;
      wire_images = s.wires.items;
    } };

    ghost invariant = { λ s. IsBlank s.pairing s.edges.items s.wires.items };
}

impl Room {
    /// Room for graphs of at most these many edges and wires.
    pub(crate) fn new(alloc: Global, edges: u32, wires: u32) -> Result<Room, NoMemory>
        ensures { IfOk result (λ room. (room.edges ≡ edges) × (room.wires ≡ wires)) }
    {
        Ok(Room {
            pairing: Pairing::new(alloc, edges, wires)?,
            edges: vec![in alloc; EdgeId(0); edges as usize]?,
            wires: vec![in alloc; WireId(0); wires as usize]?,
        })
    }

    /// How many edges and wires there is room for.
    pub(crate) fn sizes(&self) -> (usize, usize)
        ensures edges { result.0 ≡ self.now.edges }
        ensures wires { result.1 ≡ self.now.wires }
    {
        (self.edges.len(), self.wires.len())
    }

    /// Looks for an isomorphism, and keeps the images of the edges and of the wires at the front of
    /// the lists; whether there is one.
    pub(crate) fn find(&mut self, a: &Graph, b: &Graph) -> bool
        requires first { HasRoomFor self.old.edges self.old.wires a.now }
        requires second { HasRoomFor self.old.edges self.old.wires b.now }
        ensures sizes { (self.new.edges ≡ self.old.edges) × (self.new.wires ≡ self.old.wires) }
        ensures outcome { MatchBool result
            (IsIsomorphism a.now b.now (take (length a.now.edges) self.new.edge_images) (take (length a.now.wires) self.new.wire_images))
            (Isomorphic a.now b.now → ⊥) }
    {
        find(&mut self.pairing, &mut self.edges, &mut self.wires, a, b)
    }

    /// The images that were kept of the edges and of the wires of a graph.
    pub(crate) fn iso(&self, a: &Graph) -> Iso<'_>
        requires { HasRoomFor self.now.edges self.now.wires a.now }
        ensures edges { result.edges.now ≡ take (length a.now.edges) self.now.edge_images }
        ensures wires { result.wires.now ≡ take (length a.now.wires) self.now.wire_images }
    {
        Iso {
            edges: &self.edges[..a.edge_count() as usize],
            wires: &self.wires[..a.wire_count() as usize],
        }
    }
}
