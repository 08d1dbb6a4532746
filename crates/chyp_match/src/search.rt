// The search for the images of components.
ghost use Rattle.std.specs.Prelude.{◌≡◌, ◌<◌, ℕ, [], ◌∷◌, ◌++◌, ◌-◌, ◌^◌, ◌≤◌, IfNone, IfOk, IfSome, IsTrue, Some, length, option_map, slice_get};
ghost use Rattle.std.specs.Bool.{MatchBool};
ghost use Rattle.chyp_pattern.specs.Pattern.{IsPattern};
ghost use Rattle.chyp_pattern.specs.Occurrences.{IsLess};
ghost use Rattle.chyp_pairs.specs.Pairs.{Has, Pairs};
ghost use Rattle.chyp_iso.specs.Following.{Fits, Leads};
ghost use Rattle.chyp_match.specs.Following.{IsComplete, Refutes};
ghost use Rattle.chyp_match.specs.Reach.{IsReach};
ghost use Rattle.chyp_pattern.specs.Placements.{IsThere};
ghost use Rattle.chyp_match.specs.Search.{AreThere, IsAtMost, IsDropped, IsEarlier, IsExhausted, IsFound, IsMoved, IsOver, IsPast, IsSearch, IsTried, choices, chosen, second, seed_of};

use crate::Listed;
use crate::convex::is_unbroken;
use crate::follow::{follow_all, pair_edges, pair_wires};
use crate::level::Level;
use crate::levels::Levels;
use crate::reach::Reach;
use chyp_base::NoMemory;
use chyp_graph::Graph;
use chyp_pairs::{Pair, Pairing};
use chyp_pattern::{Anchor, Pattern};
use std::alloc::Global;

/// Images of the first components of a pattern, and the pairs that follow from them.
#[derive(Debug, Drop)]
pub(crate) struct Search {
    pub(crate) pairing: Pairing,
    pub(crate) levels: Levels,
}

impl Search {
    /// No image yet.
    pub(crate) fn new(alloc: Global, pattern: &Pattern, graph: &Graph) -> Result<Search, NoMemory>
        requires { IsPattern pattern.now }
        ensures search { IfOk result (λ search. IsSearch pattern.now graph.now search) }
        ensures none { IfOk result (λ search. search.levels.levels ≡ []) }
    {
        let small = pattern.graph();
        small.valid();
        graph.valid();
        let edges = small.edge_count().max(graph.edge_count());
        let wires = small.wire_count().max(graph.wire_count());
        Ok(Search {
            pairing: Pairing::new(alloc, edges, wires)?,
            levels: Levels::new(alloc, pattern.component_count() as usize)?,
        })
    }
}

/// Pairs two items; whether it could.
fn pair_seed(pairing: &mut Pairing, pattern: &Graph, graph: &Graph, seed: &Pair) -> bool
    requires fits { Fits pattern.now graph.now pairing.old }
    requires there { AreThere pattern.now graph.now seed.now }
    ensures leads { Leads pattern.now graph.now (seed.now ∷ []) pairing.old pairing.new }
    ensures outcome { MatchBool result
        (Has pairing.new.pairs seed.now)
        (Refutes pattern.now graph.now (seed.now ∷ []) pairing.old.pairs) }
{
    match seed {
        Pair::Edges(e, f) => pair_edges(pairing, pattern, graph, *e, *f),
        Pair::Wires(v, w) => pair_wires(pairing, pattern, graph, *v, *w),
    }
}

/// Pairs two items and all that hangs on the first; whether it could.
fn pair_component(pairing: &mut Pairing, pattern: &Graph, graph: &Graph, seed: &Pair) -> bool
    requires fits { Fits pattern.now graph.now pairing.old }
    requires complete { IsComplete pattern.now graph.now pairing.old.pairs }
    requires there { AreThere pattern.now graph.now seed.now }
    ensures leads { Leads pattern.now graph.now (seed.now ∷ []) pairing.old pairing.new }
    ensures outcome { MatchBool result
        (Has pairing.new.pairs seed.now × IsComplete pattern.now graph.now pairing.new.pairs)
        (Refutes pattern.now graph.now (seed.now ∷ []) pairing.old.pairs) }
{
    let count = pairing.len();
    pair_seed(pairing, pattern, graph, seed) && follow_all(pairing, pattern, graph, count)
}

/// Pairs two items and all that hangs on the first, or else changes nothing; whether it could.
fn try_component(pairing: &mut Pairing, pattern: &Graph, graph: &Graph, seed: &Pair) -> bool
    requires fits { Fits pattern.now graph.now pairing.old }
    requires complete { IsComplete pattern.now graph.now pairing.old.pairs }
    requires there { AreThere pattern.now graph.now seed.now }
    ensures outcome { MatchBool result
        (Leads pattern.now graph.now (seed.now ∷ []) pairing.old pairing.new
        × Has pairing.new.pairs seed.now
        × IsComplete pattern.now graph.now pairing.new.pairs)
        ((pairing.new ≡ pairing.old) × Refutes pattern.now graph.now (seed.now ∷ []) pairing.old.pairs) }
{
    let count = pairing.len();
    if pair_component(pairing, pattern, graph, seed) {
        return true;
    }
    pairing.undo(count);
    false
}

/// The anchor, and the edge or wire of the graph at this place among those with which its component
/// may begin.
fn seed_of(pattern: &Graph, graph: &Listed, anchor: Anchor, place: usize) -> Option<Pair>
    requires { IsThere pattern.now anchor }
    ensures seed { result ≡ option_map (seed_of anchor) (slice_get (choices pattern.now graph.now anchor) place) }
    ensures few { IfSome result (λ _. place < 2 ^ 64 - 1) }
{
    match anchor {
        Anchor::Edge(e) => {
            let edges = graph.edges_named(pattern.edge(e).name);
            let f = edges.get(place)?;
            Some(Pair::Edges(e, *f))
        }
        Anchor::Wire(v) => {
            let wires = graph.wires_sorted(pattern.wire_sort(v));
            let w = wires.get(place)?;
            Some(Pair::Wires(v, *w))
        }
    }
}

/// The anchor of a component, and the edge or wire of the graph at this place among those with which
/// it may begin.
fn seed_at(pattern: &Pattern, graph: &Listed, k: u32, place: usize) -> Option<Pair>
    requires { k < length pattern.now.anchors }
    ensures seed { (anchor : _) → slice_get pattern.now.anchors k ≡ Some anchor
        → result ≡ option_map (seed_of anchor) (slice_get (choices pattern.now.graph graph.now anchor) place) }
    ensures few { IfSome result (λ _. place < 2 ^ 64 - 1) }
{
    seed_of(pattern.graph(), graph, pattern.anchor(k), place)
}

/// The number of the second item.
fn image_in(seed: &Pair) -> u32
    ensures { result ≡ second seed.now }
{
    match seed {
        Pair::Edges(_, f) => f.0,
        Pair::Wires(_, w) => w.0,
    }
}

/// Gives the next component the first image from this place on that its ports allow; whether there is
/// one.
fn try_from(search: &mut Search, pattern: &Pattern, graph: &Listed, from: usize) -> bool
    requires search { IsSearch pattern.now graph.now search.old }
    requires more { length search.old.levels.levels < length pattern.now.anchors }
    ensures outcome { MatchBool result
        (IsTried pattern.now graph.now from search.old search.new)
        (IsExhausted pattern.now graph.now from search.old search.new) }
{
    let k = search.levels.len() as u32;
    let mut place = from;
    while let Some(seed) = seed_at(pattern, graph, k, place) {
        let next = place + 1;
        let pairs = search.pairing.len();
        if try_component(&mut search.pairing, pattern.graph(), graph.graph(), &seed) {
            let image = image_in(&seed);
            search.levels.push(Level { image, next, pairs });
            return true;
        }
        place = next;
    }
    false
}

/// Takes the image of the last component away, with the pairs that follow from it.
fn drop_last(search: &mut Search) -> Option<Level>
    requires { (levels : _) (level : _) → search.old.levels.levels ≡ levels ++ level ∷ [] → level.pairs ≤ length search.old.pairing.pairs }
    ensures some { IfSome result (λ level. IsDropped level search.old search.new) }
    ensures none { IfNone result ((search.old.levels.levels ≡ []) × (search.new ≡ search.old)) }
{
    let level = search.levels.pop()?;
    search.pairing.undo(level.pairs);
    Some(level)
}

/// Goes past all that begins with the images; whether more is left.
pub(crate) fn leave(search: &mut Search, pattern: &Pattern, graph: &Listed) -> bool
    requires { IsSearch pattern.now graph.now search.old }
    ensures { MatchBool result
        (IsMoved pattern.now graph.now (IsPast pattern.now (chosen search.old.levels.levels)) search.new
        × IsLess (chosen search.old.levels.levels) (chosen search.new.levels.levels))
        (IsOver pattern.now graph.now (IsPast pattern.now (chosen search.old.levels.levels)) search.new) }
{
    while let Some(level) = drop_last(search) {
        if try_from(search, pattern, graph, level.next) {
            return true;
        }
    }
    false
}

/// Gives one more component an image, or else goes past all that begins with the images; whether more
/// is left.
fn descend(search: &mut Search, pattern: &Pattern, graph: &Listed) -> bool
    requires search { IsSearch pattern.now graph.now search.old }
    requires more { length search.old.levels.levels < length pattern.now.anchors }
    ensures { MatchBool result
        (IsMoved pattern.now graph.now (IsEarlier pattern.now (chosen search.old.levels.levels)) search.new
        × IsLess (chosen search.old.levels.levels) (chosen search.new.levels.levels))
        (IsOver pattern.now graph.now (IsEarlier pattern.now (chosen search.old.levels.levels)) search.new) }
{
    try_from(search, pattern, graph, 0) || leave(search, pattern, graph)
}

/// Gives all components images, the next ones in order that their ports allow; whether there are such.
fn fill(search: &mut Search, pattern: &Pattern, graph: &Listed) -> bool
    requires { IsSearch pattern.now graph.now search.old }
    ensures outcome { MatchBool result
        (IsMoved pattern.now graph.now (IsEarlier pattern.now (chosen search.old.levels.levels)) search.new
        × (length search.new.levels.levels ≡ length pattern.now.anchors))
        (IsOver pattern.now graph.now (IsEarlier pattern.now (chosen search.old.levels.levels)) search.new) }
    ensures order { IsTrue result → IsAtMost (chosen search.old.levels.levels) (chosen search.new.levels.levels) }
{
    while search.levels.len() < pattern.component_count() as usize {
        if !descend(search, pattern, graph) {
            return false;
        }
    }
    true
}

/// Gives all components images that an occurrence has, the next ones in order; whether there are such.
pub(crate) fn find(
    search: &mut Search,
    pattern: &Pattern,
    graph: &Listed,
    reach: &mut Reach,
) -> bool
    requires search { IsSearch pattern.now graph.now search.old }
    requires reach { IsReach graph.now reach.old }
    ensures reach { IsReach graph.now reach.new }
    ensures outcome { MatchBool result
        (IsFound pattern.now graph.now (IsEarlier pattern.now (chosen search.old.levels.levels)) search.new)
        (IsOver pattern.now graph.now (IsEarlier pattern.now (chosen search.old.levels.levels)) search.new) }
{
    while fill(search, pattern, graph) {
        if is_unbroken(reach, &search.pairing, pattern.graph(), graph.graph()) {
            return true;
        }
        if !leave(search, pattern, graph) {
            return false;
        }
    }
    false
}
