// Pairs that follow from others, from a pattern to a graph.
ghost use Rattle.std.specs.Prelude.{◌≡◌, ◌<◌, [], ◌∷◌, All, IfSome, length, slice_get, true};
ghost use Rattle.std.specs.Bool.{MatchBool};
ghost use Rattle.chyp_graph.specs.Graph.{lent_edge};
ghost use Rattle.chyp_iso.specs.Pair.{AreAlike, wire_pairs};
ghost use Rattle.chyp_pairs.specs.Pairs.{Has, IsMatching, Pairs};
ghost use Rattle.chyp_iso.specs.Port.{port_pairs, the_sources, the_targets};
ghost use Rattle.chyp_iso.specs.Following.{Fits, Includes, Leads};
ghost use Rattle.chyp_match.specs.Following.{AreFollowed, IsComplete, IsFollowed, IsFollowedUp, Refutes, keeps_place};
ghost use Rattle.chyp_pairs.specs.declared.pair.Pair.TheVariants.{Edges, Wires};

use chyp_graph::{EdgeId, EdgeView, Graph, WireId};
use chyp_pairs::{Pair, Pairing};

/// Whether the wires have one sort.
fn same_sort(pattern: &Graph, graph: &Graph, v: WireId, w: WireId) -> bool
    requires there { v < length pattern.now.wires }
    requires within { w < length graph.now.wires }
    ensures { MatchBool result
        (slice_get graph.now.wires w ≡ slice_get pattern.now.wires v)
        (slice_get graph.now.wires w ≡ slice_get pattern.now.wires v → ⊥) }
{
    *pattern.wire_sort(v) == *graph.wire_sort(w)
}

/// Pairs two wires, unless one of them is in another pair or they differ in their sorts; whether it
/// could.
pub(crate) fn pair_wires(
    pairing: &mut Pairing,
    pattern: &Graph,
    graph: &Graph,
    v: WireId,
    w: WireId,
) -> bool
    requires fits { Fits pattern.now graph.now pairing.old }
    requires there { v < length pattern.now.wires }
    requires within { w < length graph.now.wires }
    ensures leads { Leads pattern.now graph.now (Wires v w ∷ []) pairing.old pairing.new }
    ensures outcome { MatchBool result
        (Has pairing.new.pairs (Wires v w))
        (Refutes pattern.now graph.now (Wires v w ∷ []) pairing.old.pairs) }
{
    if let Some(image) = pairing.wire(v) {
        return image == w;
    }
    if pairing.wire_back(w).is_some() {
        return false;
    }
    if !same_sort(pattern, graph, v, w) {
        return false;
    }
    pairing.add_wires(v, w);
    true
}

/// Whether the edges have one name and as many ports.
fn alike(first: EdgeView, second: EdgeView) -> bool
    ensures { MatchBool result
        (AreAlike (lent_edge first.entry) (lent_edge second.entry))
        (AreAlike (lent_edge first.entry) (lent_edge second.entry) → ⊥) }
{
    *first.name == *second.name
        && first.sources.len() == second.sources.len()
        && first.targets.len() == second.targets.len()
}

/// Pairs two edges, unless one of them is in another pair or they differ in their names or in the
/// number of their ports; whether it could.
pub(crate) fn pair_edges(
    pairing: &mut Pairing,
    pattern: &Graph,
    graph: &Graph,
    e: EdgeId,
    f: EdgeId,
) -> bool
    requires fits { Fits pattern.now graph.now pairing.old }
    requires there { e < length pattern.now.edges }
    requires within { f < length graph.now.edges }
    ensures leads { Leads pattern.now graph.now (Edges e f ∷ []) pairing.old pairing.new }
    ensures outcome { MatchBool result
        (Has pairing.new.pairs (Edges e f))
        (Refutes pattern.now graph.now (Edges e f ∷ []) pairing.old.pairs) }
{
    if let Some(image) = pairing.edge(e) {
        return image == f;
    }
    if pairing.edge_back(f).is_some() {
        return false;
    }
    if !alike(pattern.edge(e), graph.edge(f)) {
        return false;
    }
    pairing.add_edges(e, f);
    true
}

/// Pairs two lists of wires, place by place; whether it could.
pub(crate) fn pair_lists(
    pairing: &mut Pairing,
    pattern: &Graph,
    graph: &Graph,
    vs: &[WireId],
    ws: &[WireId],
) -> bool
    requires fits { Fits pattern.now graph.now pairing.old }
    requires same { length vs.now ≡ length ws.now }
    requires there { All (λ v. v < length pattern.now.wires) vs.now }
    requires within { All (λ w. w < length graph.now.wires) ws.now }
    ensures leads { Leads pattern.now graph.now (wire_pairs vs.now ws.now) pairing.old pairing.new }
    ensures outcome { MatchBool result
        (Includes (wire_pairs vs.now ws.now) pairing.new.pairs)
        (Refutes pattern.now graph.now (wire_pairs vs.now ws.now) pairing.old.pairs) }
{
    for (i, v) in vs.iter().enumerate() {
        if !pair_wires(pairing, pattern, graph, *v, ws[i]) {
            return false;
        }
    }
    true
}

/// Pairs the edges of two ports, of which the second has to be at the place of the first, where the
/// first is there; whether it could.
fn pair_ports(
    pairing: &mut Pairing,
    pattern: &Graph,
    graph: &Graph,
    first: Option<(EdgeId, u32)>,
    second: Option<(EdgeId, u32)>,
) -> bool
    requires fits { Fits pattern.now graph.now pairing.old }
    requires there { IfSome first (λ port. port.0 < length pattern.now.edges) }
    requires within { IfSome second (λ port. port.0 < length graph.now.edges) }
    ensures leads { Leads pattern.now graph.now (port_pairs first second) pairing.old pairing.new }
    ensures outcome { MatchBool result
        ((keeps_place first second ≡ true) × Includes (port_pairs first second) pairing.new.pairs)
        (keeps_place first second ≡ true → Refutes pattern.now graph.now (port_pairs first second) pairing.old.pairs) }
{
    let Some((e, i)) = first else {
        return true;
    };
    let Some((f, j)) = second else {
        return false;
    };
    i == j && pair_edges(pairing, pattern, graph, e, f)
}

/// Pairs the edges that make two paired wires; whether it could.
fn follow_producers(
    pairing: &mut Pairing,
    pattern: &Graph,
    graph: &Graph,
    v: WireId,
    w: WireId,
) -> bool
    requires fits { Fits pattern.now graph.now pairing.old }
    requires paired { Has pairing.old.pairs (Wires v w) }
    ensures leads { Leads pattern.now graph.now [] pairing.old pairing.new }
    ensures outcome { MatchBool result
        (IsFollowedUp pattern.now graph.now pairing.new.pairs the_targets v w)
        (Refutes pattern.now graph.now [] pairing.old.pairs) }
{
    let first = pattern.producer(v);
    let second = graph.producer(w);
    pair_ports(pairing, pattern, graph, first, second)
}

/// Pairs the edges that consume two paired wires; whether it could.
fn follow_consumers(
    pairing: &mut Pairing,
    pattern: &Graph,
    graph: &Graph,
    v: WireId,
    w: WireId,
) -> bool
    requires fits { Fits pattern.now graph.now pairing.old }
    requires paired { Has pairing.old.pairs (Wires v w) }
    ensures leads { Leads pattern.now graph.now [] pairing.old pairing.new }
    ensures outcome { MatchBool result
        (IsFollowedUp pattern.now graph.now pairing.new.pairs the_sources v w)
        (Refutes pattern.now graph.now [] pairing.old.pairs) }
{
    let first = pattern.consumer(v);
    let second = graph.consumer(w);
    pair_ports(pairing, pattern, graph, first, second)
}

/// Pairs the wires of two paired edges; whether it could.
fn follow_ports(pairing: &mut Pairing, pattern: &Graph, graph: &Graph, e: EdgeId, f: EdgeId) -> bool
    requires fits { Fits pattern.now graph.now pairing.old }
    requires paired { Has pairing.old.pairs (Edges e f) }
    ensures leads { Leads pattern.now graph.now [] pairing.old pairing.new }
    ensures outcome { MatchBool result
        (IsFollowed pattern.now graph.now pairing.new.pairs (Edges e f))
        (Refutes pattern.now graph.now [] pairing.old.pairs) }
{
    let first = pattern.edge(e);
    let second = graph.edge(f);
    pair_lists(pairing, pattern, graph, first.sources, second.sources)
        && pair_lists(pairing, pattern, graph, first.targets, second.targets)
}

/// Pairs all that the pair at a place touches; whether it could.
fn follow_pair(pairing: &mut Pairing, pattern: &Graph, graph: &Graph, at: usize) -> bool
    requires fits { Fits pattern.now graph.now pairing.old }
    requires there { at < length pairing.old.pairs }
    ensures leads { Leads pattern.now graph.now [] pairing.old pairing.new }
    ensures outcome { MatchBool result
        ((p : _) → slice_get pairing.old.pairs at ≡ Some p → IsFollowed pattern.now graph.now pairing.new.pairs p)
        (Refutes pattern.now graph.now [] pairing.old.pairs) }
{
    match pairing.pair(at) {
        Pair::Wires(v, w) => {
            follow_producers(pairing, pattern, graph, v, w)
                && follow_consumers(pairing, pattern, graph, v, w)
        }
        Pair::Edges(e, f) => follow_ports(pairing, pattern, graph, e, f),
    }
}

/// Pairs all that hangs on the pairs, of which those before a place are followed; whether it could.
pub(crate) fn follow_all(pairing: &mut Pairing, pattern: &Graph, graph: &Graph, from: usize) -> bool
    requires fits { Fits pattern.now graph.now pairing.old }
    requires followed { AreFollowed pattern.now graph.now pairing.old.pairs from }
    ensures leads { Leads pattern.now graph.now [] pairing.old pairing.new }
    ensures outcome { MatchBool result
        (IsComplete pattern.now graph.now pairing.new.pairs × IsMatching pairing.new.pairs)
        (Refutes pattern.now graph.now [] pairing.old.pairs) }
{
    let mut next = from;
    while next < pairing.len() {
        if !follow_pair(pairing, pattern, graph, next) {
            return false;
        }
        next += 1;
    }
    true
}
