// Edges that are found one by one.
ghost use Rattle.std.specs.Prelude.{◌≡◌, ℕ, ◌<◌, ◌≤◌, [], Contains, IfOk, length, slice_get, Some};
ghost use Rattle.std.specs.Bool.{MatchBool};
ghost use Rattle.chyp_pattern.specs.Sweep.{IsFound};

use chyp_base::NoMemory;
use chyp_graph::EdgeId;
use std::alloc::Global;
use std::marker::Model;

/// Edges of a graph in the order in which they were found, each once.
#[derive(Drop)]
pub(crate) struct Sweep {
    visited: Vec<bool>,
    found: Vec<EdgeId>,
}

impl Model for Sweep {
    ghost use Rattle.std.specs.Prelude.{length};
    ghost use Rattle.std.specs.Vec.{vec_capacity};
    ghost use Rattle.chyp_pattern.specs.Sweep.{Found, IsKept};

    ghost Value = { Found };

    ghost view = { λ s. record { edges = length s.visited.items; found = s.found.items } };

    ghost invariant = { λ s. IsKept s.visited.items s.found.items (vec_capacity s.found) };
}

impl Sweep {
    /// None of this many edges is found. It takes all the memory that it will need.
    pub(crate) fn new(alloc: Global, edges: u32) -> Result<Sweep, NoMemory>
        ensures { IfOk result (λ sweep. sweep ≡ record { edges = edges; found = [] }) }
    {
        Ok(Sweep {
            visited: vec![in alloc; false; edges as usize]?,
            found: Vec::with_capacity(alloc, edges as usize)?,
        })
    }

    /// How many edges are found.
    pub(crate) fn len(&self) -> usize
        ensures count { result ≡ length self.now.found }
        ensures bound { result ≤ self.now.edges }
    {
        self.found.len()
    }

    /// The edge that was found at this place.
    pub(crate) fn edge(&self, at: usize) -> EdgeId
        requires { at < length self.now.found }
        ensures edge { slice_get self.now.found at ≡ Some result }
        ensures within { result < self.now.edges }
    {
        self.found[at]
    }

    /// Whether the edge is found.
    pub(crate) fn has(&self, k: EdgeId) -> bool
        requires { k < self.now.edges }
        ensures { MatchBool result (Contains self.now.found k) (Contains self.now.found k → ⊥) }
    {
        self.visited[k.0 as usize]
    }

    /// Finds the edge, unless it is found already.
    pub(crate) fn find(&mut self, k: EdgeId)
        requires { k < self.old.edges }
        ensures { IsFound k self.old self.new }
    {
        if self.has(k) {
            return;
        }
        self.found.push(k).unwrap();
        self.visited[k.0 as usize] = true;
    }
}
