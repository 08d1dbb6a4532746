// The search for occurrences, one by one.
ghost use Rattle.std.specs.Prelude.{◌≡◌, ℕ, ◌<◌, ◌≤◌, Some, length, slice_index, true};
ghost use Rattle.std.specs.Bool.{MatchBool};
ghost use Rattle.chyp_match.specs.Matcher.{AreImages, IsDone, IsFinder, IsNext, IsPassedBy, IsSame};
ghost use Rattle.chyp_match.specs.Reach.{IsReach};
ghost use Rattle.chyp_match.specs.Search.{IsFound, IsOver};
ghost use Rattle.chyp_pairs.specs.Pairs.{Pairs, edge_there, image, wire_there};

use crate::Listed;
use crate::reach::Reach;
use crate::search::{Search, find, leave};
use chyp_graph::{EdgeId, EdgeIds, Graph, WireId, WireIds};
use chyp_pairs::Pairing;
use chyp_pattern::{Occurrence, Pattern};
use std::alloc::Global;
use std::mem;

/// A search for the occurrences of a pattern in a graph, and the last one that it has found.
#[derive(Drop)]
pub(crate) struct Finder<'a> {
    pub(crate) pattern: &'a Pattern,
    pub(crate) graph: &'a Listed<'a>,
    pub(crate) reach: Reach,
    pub(crate) search: Search,
    pub(crate) begun: bool,
    pub(crate) found: Occurrence,
}

/// The list with the images of the edges in it.
fn edge_images(pairing: &Pairing, ids: EdgeIds, count: u32) -> EdgeIds
    requires within { count ≤ pairing.now.edges }
    requires size { length ids ≡ count }
    ensures size { length result ≡ count }
    ensures images { (k f : ℕ) → k < count → image edge_there pairing.now.pairs k ≡ Some f → slice_index result k ≡ f }
{
    let mut edges = ids.into_vec();
    for k in 0..count {
        if let Some(image) = pairing.edge(EdgeId(k)) {
            edges[k as usize] = image;
        }
    }
    EdgeIds::from_vec(edges)
}

/// The list with the images of the wires in it.
fn wire_images(pairing: &Pairing, ids: WireIds, count: u32) -> WireIds
    requires within { count ≤ pairing.now.wires }
    requires size { length ids ≡ count }
    ensures size { length result ≡ count }
    ensures images { (v w : ℕ) → v < count → image wire_there pairing.now.pairs v ≡ Some w → slice_index result v ≡ w }
{
    let mut wires = ids.into_vec();
    for v in 0..count {
        if let Some(image) = pairing.wire(WireId(v)) {
            wires[v as usize] = image;
        }
    }
    WireIds::from_vec(wires)
}

/// Goes on to the next images that an occurrence has; whether there are such.
fn go_on(finder: &mut Finder) -> bool
    requires { IsFinder finder.old }
    ensures same { finder.new ≡ record finder.old { reach = finder.new.reach; search = finder.new.search; begun = true } }
    ensures reach { IsReach finder.old.graph.now finder.new.reach }
    ensures outcome { MatchBool result
        (IsFound finder.old.pattern.now finder.old.graph.now (IsPassedBy finder.old) finder.new.search)
        (IsOver finder.old.pattern.now finder.old.graph.now (IsPassedBy finder.old) finder.new.search) }
{
    if finder.begun && !leave(&mut finder.search, finder.pattern, finder.graph) {
        return false;
    }
    finder.begun = true;
    find(
        &mut finder.search,
        finder.pattern,
        finder.graph,
        &mut finder.reach,
    )
}

/// Keeps the images of all edges and wires.
fn keep_images(finder: &mut Finder)
    requires { IsFinder finder.old }
    ensures same { finder.new ≡ record finder.old { found = finder.new.found } }
    ensures images { AreImages finder.new }
{
    let _ = finder.search.pairing.len();
    let alloc = finder.graph.graph().allocator();
    let small = finder.pattern.graph();
    let edges = mem::replace(&mut finder.found.edges, EdgeIds::from_vec(Vec::new(alloc)));
    let wires = mem::replace(&mut finder.found.wires, WireIds::from_vec(Vec::new(alloc)));
    finder.found = Occurrence {
        edges: edge_images(&finder.search.pairing, edges, small.edge_count()),
        wires: wire_images(&finder.search.pairing, wires, small.wire_count()),
    };
}

/// Goes on to the next occurrence and keeps it; whether there is one.
pub(crate) fn advance(finder: &mut Finder) -> bool
    requires { IsFinder finder.old }
    ensures finder { IsFinder finder.new }
    ensures same { IsSame finder.old finder.new }
    ensures outcome { MatchBool result (IsNext finder.old finder.new) (IsDone finder.old finder.new) }
{
    if !go_on(finder) {
        return false;
    }
    keep_images(finder);
    true
}
