// The parts of graphs that hang on no interface.
ghost use Rattle.std.specs.Prelude.{◌≡◌, ◌<◌, ℕ, [], ◌∷◌, None, length};
ghost use Rattle.std.specs.Bool.{MatchBool};
ghost use Rattle.chyp_graph.specs.Isomorphism.{Isomorphic};
ghost use Rattle.chyp_pairs.specs.Pairs.{Has, Pairs, edge_there, image};
ghost use Rattle.chyp_iso.specs.Following.{Leads, Maps, Refutes};
ghost use Rattle.chyp_iso.specs.Search.{AreKnown, IsExtended, IsPairing};
ghost use Rattle.chyp_pairs.specs.declared.pair.Pair.TheVariants.{Edges};

use crate::follow::{follow_all, pair_edges};
use chyp_graph::{EdgeId, Graph};
use chyp_pairs::Pairing;

/// Pairs two edges and all that hangs on them; whether it could.
fn pair_part(pairing: &mut Pairing, a: &Graph, b: &Graph, e: EdgeId, f: EdgeId) -> bool
    requires whole { IsPairing a.now b.now pairing.old }
    requires there { e < length a.now.edges }
    requires within { f < length b.now.edges }
    ensures leads { Leads a.now b.now (Edges e f ∷ []) pairing.old pairing.new }
    ensures outcome { MatchBool result
        (Has pairing.new.pairs (Edges e f) × IsPairing a.now b.now pairing.new)
        (Refutes a.now b.now (Edges e f ∷ []) pairing.old.pairs) }
{
    let count = pairing.len();
    pair_edges(pairing, a, b, e, f) && follow_all(pairing, a, b, count)
}

/// Pairs two edges, of which the first is in no pair, and all that hangs on them, or else changes
/// nothing; whether it could. Where the second is in a pair, it says so at once.
fn try_part(pairing: &mut Pairing, a: &Graph, b: &Graph, e: EdgeId, f: EdgeId) -> bool
    requires whole { IsPairing a.now b.now pairing.old }
    requires there { e < length a.now.edges }
    requires within { f < length b.now.edges }
    requires new { image edge_there pairing.old.pairs e ≡ None }
    ensures outcome { MatchBool result
        (Leads a.now b.now (Edges e f ∷ []) pairing.old pairing.new
        × Has pairing.new.pairs (Edges e f)
        × IsPairing a.now b.now pairing.new)
        ((pairing.new ≡ pairing.old) × Refutes a.now b.now (Edges e f ∷ []) pairing.old.pairs) }
{
    if pairing.edge_back(f).is_some() {
        return false;
    }
    let count = pairing.len();
    if pair_part(pairing, a, b, e, f) {
        return true;
    }
    pairing.undo(count);
    false
}

/// Pairs an edge of the first graph that is in no pair, and all that hangs on it, with the first edge
/// of the other graph that fits; whether there is one.
fn pair_somehow(pairing: &mut Pairing, a: &Graph, b: &Graph, e: EdgeId) -> bool
    requires whole { IsPairing a.now b.now pairing.old }
    requires there { e < length a.now.edges }
    requires new { image edge_there pairing.old.pairs e ≡ None }
    ensures outcome { MatchBool result
        (IsPairing a.now b.now pairing.new
        × ((f : ℕ) × Leads a.now b.now (Edges e f ∷ []) pairing.old pairing.new × Has pairing.new.pairs (Edges e f)))
        ((iso : Isomorphic a.now b.now) → Maps iso pairing.old.pairs → ⊥) }
    ensures sizes { (pairing.new.edges ≡ pairing.old.edges) × (pairing.new.wires ≡ pairing.old.wires) }
{
    for f in 0..b.edge_count() {
        if try_part(pairing, a, b, e, EdgeId(f)) {
            return true;
        }
    }
    false
}

/// Pairs an edge that may be in no pair yet, and all that hangs on it; whether it could.
fn pair_one(pairing: &mut Pairing, a: &Graph, b: &Graph, e: EdgeId) -> bool
    requires whole { IsPairing a.now b.now pairing.old }
    requires there { e < length a.now.edges }
    ensures outcome { MatchBool result
        (IsExtended a.now b.now pairing.old pairing.new × ((f : ℕ) × Has pairing.new.pairs (Edges e f)))
        ((iso : Isomorphic a.now b.now) → Maps iso pairing.old.pairs → ⊥) }
    ensures sizes { (pairing.new.edges ≡ pairing.old.edges) × (pairing.new.wires ≡ pairing.old.wires) }
{
    if pairing.edge(e).is_some() {
        return true;
    }
    pair_somehow(pairing, a, b, e)
}

/// Pairs the edges that are in no pair yet, and all that hangs on them; whether it could.
pub(crate) fn pair_rest(pairing: &mut Pairing, a: &Graph, b: &Graph) -> bool
    requires whole { IsPairing a.now b.now pairing.old }
    ensures outcome { MatchBool result
        (IsPairing a.now b.now pairing.new × AreKnown pairing.new.pairs (length a.now.edges))
        ((iso : Isomorphic a.now b.now) → Maps iso pairing.old.pairs → ⊥) }
    ensures sizes { (pairing.new.edges ≡ pairing.old.edges) × (pairing.new.wires ≡ pairing.old.wires) }
{
    for e in 0..a.edge_count() {
        if !pair_one(pairing, a, b, EdgeId(e)) {
            return false;
        }
    }
    true
}
