// The search for an isomorphism.
ghost use Rattle.std.specs.Prelude.{◌≡◌, ◌≤◌, [], Some, length, take};
ghost use Rattle.std.specs.Bool.{MatchBool};
ghost use Rattle.chyp_graph.specs.Isomorphism.{Isomorphic};
ghost use Rattle.chyp_graph.specs.Validity.{IsValid};
ghost use Rattle.chyp_iso.specs.IsIsomorphism.{IsIsomorphism};
ghost use Rattle.chyp_pairs.specs.Pairs.{Pairs, edge_there, image, wire_there};
ghost use Rattle.chyp_iso.specs.Following.{Fits, Includes, Leads, Maps, Refutes};
ghost use Rattle.chyp_iso.specs.Search.{HaveSameCounts, HaveSameEnds, IsPairing, IsWhole, end_pairs};
ghost use Rattle.chyp_iso.specs.Scratch.{AreImages, HasRoomFor};

use crate::follow::{follow_all, pair_lists};
use crate::search::pair_rest;
use chyp_graph::{EdgeId, Graph, WireId};
use chyp_pairs::Pairing;

/// Whether the graphs have as many edges and as many wires.
fn same_counts(a: &Graph, b: &Graph) -> bool
    ensures { MatchBool result (HaveSameCounts a.now b.now) (Isomorphic a.now b.now → ⊥) }
{
    a.edge_count() == b.edge_count() && a.wire_count() == b.wire_count()
}

/// Whether the graphs have as many inputs and as many outputs.
fn same_ends(a: &Graph, b: &Graph) -> bool
    ensures outcome { MatchBool result (HaveSameEnds a.now b.now) (Isomorphic a.now b.now → ⊥) }
    ensures valid { IsValid a.now × IsValid b.now }
{
    a.inputs().len() == b.inputs().len() && a.outputs().len() == b.outputs().len()
}

/// Pairs the interfaces of two graphs, place by place; whether it could.
fn pair_ends(pairing: &mut Pairing, a: &Graph, b: &Graph) -> bool
    requires fits { Fits a.now b.now pairing.old }
    requires ends { HaveSameEnds a.now b.now }
    ensures leads { Leads a.now b.now (end_pairs a.now b.now) pairing.old pairing.new }
    ensures outcome { MatchBool result
        (Includes (end_pairs a.now b.now) pairing.new.pairs)
        (Refutes a.now b.now (end_pairs a.now b.now) pairing.old.pairs) }
{
    pair_lists(pairing, a, b, a.inputs(), b.inputs())
        && pair_lists(pairing, a, b, a.outputs(), b.outputs())
}

/// Pairs the interfaces of two graphs and all that hangs on them; whether it could.
fn pair_hanging(pairing: &mut Pairing, a: &Graph, b: &Graph) -> bool
    requires none { pairing.old.pairs ≡ [] }
    requires fits { Fits a.now b.now pairing.old }
    requires ends { HaveSameEnds a.now b.now }
    ensures outcome { MatchBool result
        (IsPairing a.now b.now pairing.new × ((iso : Isomorphic a.now b.now) → Maps iso pairing.new.pairs))
        (Isomorphic a.now b.now → ⊥) }
    ensures sizes { (pairing.new.edges ≡ pairing.old.edges) × (pairing.new.wires ≡ pairing.old.wires) }
{
    pair_ends(pairing, a, b) && follow_all(pairing, a, b, 0)
}

/// Pairs all items of two graphs; whether it could.
fn pair_all(pairing: &mut Pairing, a: &Graph, b: &Graph) -> bool
    requires none { pairing.old.pairs ≡ [] }
    requires first { HasRoomFor pairing.old.edges pairing.old.wires a.now }
    requires second { HasRoomFor pairing.old.edges pairing.old.wires b.now }
    ensures sizes { (pairing.new.edges ≡ pairing.old.edges) × (pairing.new.wires ≡ pairing.old.wires) }
    ensures outcome { MatchBool result (IsWhole a.now b.now pairing.new) (Isomorphic a.now b.now → ⊥) }
{
    if !same_counts(a, b) || !same_ends(a, b) {
        return false;
    }
    pair_hanging(pairing, a, b) && pair_rest(pairing, a, b)
}

/// Writes the image of each of the first edges that has one into a list.
fn write_edges(pairing: &Pairing, edges: &mut [EdgeId], count: u32)
    requires known { count ≤ pairing.now.edges }
    requires room { count ≤ length edges.old }
    ensures { AreImages edge_there pairing.now.pairs count edges.new }
{
    for e in 0..count {
        if let Some(image) = pairing.edge(EdgeId(e)) {
            edges[e as usize] = image;
        }
    }
}

/// Writes the image of each of the first wires that has one into a list.
fn write_wires(pairing: &Pairing, wires: &mut [WireId], count: u32)
    requires known { count ≤ pairing.now.wires }
    requires room { count ≤ length wires.old }
    ensures { AreImages wire_there pairing.now.pairs count wires.new }
{
    for v in 0..count {
        if let Some(image) = pairing.wire(WireId(v)) {
            wires[v as usize] = image;
        }
    }
}

/// Looks for an isomorphism, and writes the images of the edges and of the wires to the front of two
/// lists; whether there is one.
pub(crate) fn find(
    pairing: &mut Pairing,
    edges: &mut [EdgeId],
    wires: &mut [WireId],
    a: &Graph,
    b: &Graph,
) -> bool
    requires none { pairing.old.pairs ≡ [] }
    requires first { HasRoomFor pairing.old.edges pairing.old.wires a.now }
    requires second { HasRoomFor pairing.old.edges pairing.old.wires b.now }
    requires edges { pairing.old.edges ≡ length edges.old }
    requires wires { pairing.old.wires ≡ length wires.old }
    ensures same { pairing.new ≡ pairing.old }
    ensures outcome { MatchBool result
        (IsIsomorphism a.now b.now (take (length a.now.edges) edges.new) (take (length a.now.wires) wires.new))
        (Isomorphic a.now b.now → ⊥) }
{
    let fits = pair_all(pairing, a, b);
    write_edges(pairing, edges, a.edge_count());
    write_wires(pairing, wires, a.wire_count());
    pairing.undo(0);
    fits
}
