// How many placements a pattern has in a graph.
ghost use Rattle.std.specs.Prelude.{◌<◌, ◌+◌, IsTrue, length};
ghost use Rattle.chyp_pattern.specs.Placements.{ArePlacements, BeginAlike, IsCount, IsKnownBefore, IsNamed, IsOfSort, IsThere, MayBegin};

use chyp_base::{Name, Sort};
use chyp_graph::{EdgeId, Graph, WireId};
use chyp_pattern::{Anchor, Pattern};

/// The number of placements of the pattern in the graph, or 2^64 - 1 where there are more: the
/// product, over the components of the pattern, of the number of edges with the name of the
/// component's first edge, or of wires with the sort of its one wire. It takes no memory, and goes over
/// the graph once for each run of components that begin alike.
pub fn placements(pattern: &Pattern, graph: &Graph) -> u64
    ensures { ArePlacements pattern.now graph.now result }
{
    let mut product: u64 = 1;
    let mut count = 0;
    for k in 0..pattern.component_count() {
        count = choices_at(pattern, graph, k, count);
        product = product.saturating_mul(count);
    }
    product
}

/// With how many edges or wires of the graph a component of the pattern may begin, where that number
/// is known of the component before it.
fn choices_at(pattern: &Pattern, graph: &Graph, k: u32, before: u64) -> u64
    requires there { k < length pattern.now.anchors }
    requires known { IsKnownBefore pattern.now graph.now k before }
    ensures { IsKnownBefore pattern.now graph.now (k + 1) result }
{
    let whole = pattern.graph();
    if k == 0 {
        return choices(whole, graph, pattern.anchor(k));
    }
    if begin_alike(whole, pattern.anchor(k - 1), pattern.anchor(k)) {
        return before;
    }
    choices(whole, graph, pattern.anchor(k))
}

/// Whether both are edges of one name, or wires of one sort.
fn begin_alike(pattern: &Graph, first: Anchor, second: Anchor) -> bool
    requires first { IsThere pattern.now first }
    requires second { IsThere pattern.now second }
    ensures { IsTrue result → BeginAlike pattern.now first second }
{
    match first {
        Anchor::Edge(j) => match second {
            Anchor::Edge(k) => *pattern.edge(j).name == *pattern.edge(k).name,
            Anchor::Wire(_) => false,
        },
        Anchor::Wire(v) => match second {
            Anchor::Edge(_) => false,
            Anchor::Wire(w) => *pattern.wire_sort(v) == *pattern.wire_sort(w),
        },
    }
}

/// With how many edges or wires of the graph a component of the pattern that begins so may begin.
fn choices(pattern: &Graph, graph: &Graph, anchor: Anchor) -> u64
    requires { IsThere pattern.now anchor }
    ensures { IsCount (MayBegin pattern.now graph.now anchor) result }
{
    match anchor {
        Anchor::Edge(k) => edges_named(graph, pattern.edge(k).name),
        Anchor::Wire(w) => wires_of(graph, pattern.wire_sort(w)),
    }
}

/// How many edges have this name.
fn edges_named(graph: &Graph, name: &Name) -> u64
    ensures { IsCount (IsNamed graph.now name.now) result }
{
    let mut count = 0;
    for k in 0..graph.edge_count() {
        if *graph.edge(EdgeId(k)).name == *name {
            count += 1;
        }
    }
    count
}

/// How many wires have this sort.
fn wires_of(graph: &Graph, sort: &Sort) -> u64
    ensures { IsCount (IsOfSort graph.now sort.now) result }
{
    let mut count = 0;
    for w in 0..graph.wire_count() {
        if *graph.wire_sort(WireId(w)) == *sort {
            count += 1;
        }
    }
    count
}
