// The test whether images are convex.
ghost use Rattle.std.specs.Prelude.{◌≡◌, ℕ, ◌<◌, ◌≤◌, length};
ghost use Rattle.std.specs.Bool.{MatchBool};
ghost use Rattle.chyp_iso.specs.Following.{Fits};
ghost use Rattle.chyp_match.specs.Convex.{IsTakenAt, IsTheOne, IsUnbroken, MakesImage, TakesImage};
ghost use Rattle.chyp_match.specs.Reach.{IsReach};
ghost use Rattle.chyp_match.specs.Row.{IsMarked};
ghost use Rattle.chyp_pairs.specs.Pairs.{Has, IsMatching, Pairs};
ghost use Rattle.chyp_pairs.specs.declared.pair.Pair.TheVariants.{Wires};

use crate::reach::Reach;
use crate::row::Row;
use chyp_graph::{EdgeId, Graph, WireId};
use chyp_pairs::Pairing;

/// The edge that takes the image of the wire, where there is one.
fn taker(pairing: &Pairing, graph: &Graph, v: WireId) -> Option<EdgeId>
    requires there { v < pairing.now.wires }
    requires within { (w : ℕ) → Has pairing.now.pairs (Wires v w) → w < length graph.now.wires }
    ensures { IsTheOne (TakesImage graph.now pairing.now.pairs v) result }
{
    graph.valid();
    let image = pairing.wire(v)?;
    let (j, _) = graph.consumer(image)?;
    Some(j)
}

/// The edge that makes the image of the wire, where there is one.
fn maker(pairing: &Pairing, graph: &Graph, u: WireId) -> Option<EdgeId>
    requires there { u < pairing.now.wires }
    requires within { (x : ℕ) → Has pairing.now.pairs (Wires u x) → x < length graph.now.wires }
    ensures { IsTheOne (MakesImage graph.now pairing.now.pairs u) result }
{
    graph.valid();
    let image = pairing.wire(u)?;
    let (k, _) = graph.producer(image)?;
    Some(k)
}

/// Whether one of the marked edges takes the image of an output.
fn is_taken(row: &Row, pairing: &Pairing, pattern: &Graph, graph: &Graph) -> bool
    requires fits { Fits pattern.now graph.now pairing.now }
    requires size { length row.now.marks ≡ length graph.now.edges }
    ensures { MatchBool result
        (IsTakenAt pattern.now graph.now pairing.now.pairs (IsMarked row.now.marks))
        (IsTakenAt pattern.now graph.now pairing.now.pairs (IsMarked row.now.marks) → ⊥) }
{
    for v in pattern.outputs() {
        if let Some(j) = taker(pairing, graph, *v) {
            if row.has(j) {
                return true;
            }
        }
    }
    false
}

/// Whether no edge that takes the image of an output leads to one that makes the image of an input.
pub(crate) fn is_unbroken(
    reach: &mut Reach,
    pairing: &Pairing,
    pattern: &Graph,
    graph: &Graph,
) -> bool
    requires fits { Fits pattern.now graph.now pairing.now }
    requires reach { IsReach graph.now reach.old }
    ensures reach { IsReach graph.now reach.new }
    ensures matching { IsMatching pairing.now.pairs }
    ensures outcome { MatchBool result
        (IsUnbroken pattern.now graph.now pairing.now.pairs)
        (IsUnbroken pattern.now graph.now pairing.now.pairs → ⊥) }
{
    let _ = pairing.len();
    for u in pattern.inputs() {
        if let Some(k) = maker(pairing, graph, *u) {
            reach.find(graph, k);
            if is_taken(reach.row(k), pairing, pattern, graph) {
                return false;
            }
        }
    }
    true
}
