// Walks along two graphs, side by side.
ghost use Rattle.std.specs.Prelude.{◌≡◌, ◌<◌, IfOk, IfSome, [], Some, length, slice_get, ⊤};
ghost use Rattle.std.specs.Bool.{MatchBool};
ghost use Rattle.chyp_graph.specs.Graph.{lent_edge};
ghost use Rattle.chyp_iso.specs.Pair.{AreAlike};
ghost use Rattle.chyp_judge.specs.Rewrite.{IsRewrite};
ghost use Rattle.chyp_judge.specs.Walk.{AreAtOnePort, AreEnds, AreLinked, AreWithin, Differs, GoesOn, IsWalk, MayPartner};

use crate::partners::Partners;
use crate::rewrite::Rewrite;
use chyp_base::NoMemory;
use chyp_graph::{EdgeId, EdgeView, WireId};
use std::alloc::Global;

/// A walk along a graph that is rewritten and the one that is to come out, which goes on from the ends
/// of both, from wire to edge and from edge to wire, as long as they agree.
#[derive(Drop)]
pub(crate) struct Walk<'a> {
    pub(crate) rewrite: &'a Rewrite,
    /// The wires that correspond, as they were found.
    pub(crate) partners: Vec<Partners>,
    /// Whether each wire of the graph that is rewritten has a partner.
    pub(crate) wires: Vec<bool>,
    /// Whether the walk has come to each edge of that graph.
    pub(crate) edges: Vec<bool>,
}

/// A walk that has no partners yet.
pub(crate) fn begin<'a>(alloc: Global, rewrite: &'a Rewrite) -> Result<Walk<'a>, NoMemory>
    requires { IsRewrite rewrite.now }
    ensures walk { IfOk result (λ walk. IsWalk walk) }
    ensures none { IfOk result (λ walk. walk.partners.items ≡ []) }
    ensures rewrite { IfOk result (λ walk. walk.rewrite.now ≡ rewrite.entry.now) }
{
    rewrite.from.valid();
    rewrite.to.valid();
    Ok(Walk {
        rewrite,
        partners: Vec::new(alloc),
        wires: vec![in alloc; false; rewrite.from.wire_count() as usize]?,
        edges: vec![in alloc; false; rewrite.from.edge_count() as usize]?,
    })
}

/// Makes the two wires partners, unless the first has one.
fn add(walk: &mut Walk, new: Partners) -> Result<(), NoMemory>
    requires walk { IsWalk walk.old }
    requires within { AreWithin walk.old.rewrite.now new.partner new.wire }
    requires linked { AreLinked walk.old.rewrite.now walk.old.partners.items new.origin new.partner new.wire }
    requires earlier { IfSome new.origin (λ j. j < length walk.old.partners.items) }
    ensures { IfOk result (λ _. GoesOn walk.old walk.new) }
{
    let at = new.wire.0 as usize;
    if walk.wires[at] {
        return Ok(());
    }
    walk.wires[at] = true;
    walk.partners.push(new)?;
    Ok(())
}

/// Makes the wires at each place of two lists partners.
pub(crate) fn add_all(
    walk: &mut Walk,
    wires: &[WireId],
    partners: &[WireId],
    origin: Option<usize>,
) -> Result<(), NoMemory>
    requires walk { IsWalk walk.old }
    requires size { length partners.now ≡ length wires.now }
    requires may { MayPartner walk.old origin partners.now wires.now }
    ensures { IfOk result (λ _. GoesOn walk.old walk.new) }
{
    for (i, wire) in wires.iter().enumerate() {
        let new = Partners {
            wire: *wire,
            partner: partners[i],
            origin,
        };
        add(walk, new)?;
    }
    Ok(())
}

/// Whether the edges have one name and as many ports.
fn are_alike(first: &EdgeView, second: &EdgeView) -> bool
    ensures { MatchBool result
        (AreAlike (lent_edge second.now) (lent_edge first.now))
        (AreAlike (lent_edge second.now) (lent_edge first.now) → ⊥) }
{
    first.sources.len() == second.sources.len()
        && first.targets.len() == second.targets.len()
        && *first.name == *second.name
}

/// Makes partners of the wires of two edges, which have the wires of partners at one port; false only
/// where the edges differ.
fn follow_edges(walk: &mut Walk, at: usize, e: EdgeId, f: EdgeId) -> Result<bool, NoMemory>
    requires walk { IsWalk walk.old }
    requires at { at < length walk.old.partners.items }
    requires there { e < length walk.old.edges.items }
    requires within { f < length walk.old.rewrite.now.to.edges }
    requires port { (p : _) → slice_get walk.old.partners.items at ≡ Some p → AreAtOnePort walk.old.rewrite.now p e f }
    ensures walk { IfOk result (λ _. GoesOn walk.old walk.new) }
    ensures outcome { IfOk result (λ outcome. MatchBool outcome ⊤
        ((p : _) → slice_get walk.old.partners.items at ≡ Some p → Differs walk.old.rewrite.now p)) }
{
    if walk.edges[e.0 as usize] {
        return Ok(true);
    }
    let first = walk.rewrite.from.edge(e);
    let second = walk.rewrite.to.edge(f);
    if !are_alike(&first, &second) {
        return Ok(false);
    }
    walk.edges[e.0 as usize] = true;
    add_all(walk, first.sources, second.sources, Some(at))?;
    add_all(walk, first.targets, second.targets, Some(at))?;
    Ok(true)
}

/// Follows the ends of two partners on one side to edges; false only where the ends or the edges
/// differ.
fn follow_ends(
    walk: &mut Walk,
    at: usize,
    first: Option<(EdgeId, u32)>,
    second: Option<(EdgeId, u32)>,
) -> Result<bool, NoMemory>
    requires walk { IsWalk walk.old }
    requires at { at < length walk.old.partners.items }
    requires ends { (p : _) → slice_get walk.old.partners.items at ≡ Some p → AreEnds walk.old.rewrite.now p first second }
    ensures walk { IfOk result (λ _. GoesOn walk.old walk.new) }
    ensures outcome { IfOk result (λ outcome. MatchBool outcome ⊤
        ((p : _) → slice_get walk.old.partners.items at ≡ Some p → Differs walk.old.rewrite.now p)) }
{
    let Some(port) = first else {
        return Ok(second.is_none());
    };
    let Some(other) = second else {
        return Ok(false);
    };
    if port.1 != other.1 {
        return Ok(false);
    }
    follow_edges(walk, at, port.0, other.0)
}

/// Follows two partners to the edges that use them; false only where the graphs differ there.
fn follow_consumers(walk: &mut Walk, at: usize) -> Result<bool, NoMemory>
    requires walk { IsWalk walk.old }
    requires at { at < length walk.old.partners.items }
    ensures walk { IfOk result (λ _. GoesOn walk.old walk.new) }
    ensures outcome { IfOk result (λ outcome. MatchBool outcome ⊤
        ((p : _) → slice_get walk.old.partners.items at ≡ Some p → Differs walk.old.rewrite.now p)) }
{
    let Partners { wire, partner, .. } = walk.partners[at];
    let first = walk.rewrite.from.consumer(wire);
    let second = walk.rewrite.to.consumer(partner);
    follow_ends(walk, at, first, second)
}

/// Follows two partners to the edges that make them; false only where the graphs differ there.
fn follow_producers(walk: &mut Walk, at: usize) -> Result<bool, NoMemory>
    requires walk { IsWalk walk.old }
    requires at { at < length walk.old.partners.items }
    ensures walk { IfOk result (λ _. GoesOn walk.old walk.new) }
    ensures outcome { IfOk result (λ outcome. MatchBool outcome ⊤
        ((p : _) → slice_get walk.old.partners.items at ≡ Some p → Differs walk.old.rewrite.now p)) }
{
    let Partners { wire, partner, .. } = walk.partners[at];
    let first = walk.rewrite.from.producer(wire);
    let second = walk.rewrite.to.producer(partner);
    follow_ends(walk, at, first, second)
}

/// Follows two partners to what uses them and to what makes them; false only where the graphs differ
/// there.
pub(crate) fn follow(walk: &mut Walk, at: usize) -> Result<bool, NoMemory>
    requires walk { IsWalk walk.old }
    requires at { at < length walk.old.partners.items }
    ensures walk { IfOk result (λ _. GoesOn walk.old walk.new) }
    ensures outcome { IfOk result (λ outcome. MatchBool outcome ⊤
        ((p : _) → slice_get walk.old.partners.items at ≡ Some p → Differs walk.old.rewrite.now p)) }
{
    Ok(follow_consumers(walk, at)? && follow_producers(walk, at)?)
}
