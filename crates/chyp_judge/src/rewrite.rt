// Rewriting one graph to another.
ghost use Rattle.std.specs.Prelude.{◌≡◌, ◌+◌, ◌<◌, ◌^◌, IfOk};
ghost use Rattle.std.specs.Bool.{MatchBool};
ghost use Rattle.chyp_pattern.specs.Occurrence.{IsOccurrence};
ghost use Rattle.chyp_iso.specs.Scratch.{HasRoomFor};
ghost use Rattle.chyp_judge.specs.Differences.{AreDifferences};
ghost use Rattle.chyp_judge.specs.Rewrite.{AreAll, HaveSizes, IsBegun, IsRewrite, IsTried, Reaches};

use crate::Judged;
use crate::differences::{Differences, find_differences, is_ruled_out, none_known};
use chyp_base::NoMemory;
use chyp_graph::Graph;
use chyp_iso::{Scratch, same};
use chyp_match::{Listed, Occurrences};
use chyp_pattern::{Occurrence, Pattern};
use chyp_replace::replace;
use std::alloc::Global;

/// The graphs of a rule's two sides, a graph, and the one that the rule is to make of it.
#[derive(Drop)]
pub(crate) struct Rewrite {
    pub(crate) from: Graph,
    pub(crate) left: Pattern,
    pub(crate) right: Graph,
    pub(crate) to: Graph,
}

/// Good exactly where the one graph, with some occurrence of the left side replaced by the right side,
/// is isomorphic to the other one; else it comes with the number of occurrences.
pub(crate) fn judge_rewrite(alloc: Global, rewrite: &Rewrite) -> Result<Judged, NoMemory>
    requires { IsRewrite rewrite.now }
    ensures { IfOk result (IsTried rewrite.now) }
{
    let listed = Listed::of(alloc, &rewrite.from)?;
    let mut occurrences = Occurrences::new(alloc, &rewrite.left, &listed)?;
    if has_other_size(rewrite) {
        let occurrences = count_all(&mut occurrences);
        return Ok(Judged::NoRewrite { occurrences });
    }
    try_all(alloc, rewrite, &mut occurrences)
}

/// Whether the graph that is to come out has another size than the graph with an occurrence replaced,
/// which has the same size for all occurrences.
fn has_other_size(rewrite: &Rewrite) -> bool
    ensures { MatchBool result (HaveSizes rewrite.now → ⊥) (HaveSizes rewrite.now) }
{
    let left = rewrite.left.graph();
    rewrite.from.edge_count() + rewrite.right.edge_count()
        != rewrite.to.edge_count() + left.edge_count()
        || rewrite.from.wire_count() + rewrite.right.wire_count()
            != rewrite.to.wire_count() + left.wire_count()
}

/// The number of all occurrences.
fn count_all(occurrences: &mut Occurrences) -> u64
    requires { IsBegun occurrences.old }
    ensures { AreAll occurrences.old result }
{
    let mut count = 0;
    while let Some(_) = occurrences.next() {
        count += 1;
    }
    count
}

/// Good where an occurrence reaches the graph that is to come out; else with the number of
/// occurrences. Where the first one doesn't, the differences of the two graphs rule out each further
/// one that leaves one of them where it is.
fn try_all(
    alloc: Global,
    rewrite: &Rewrite,
    occurrences: &mut Occurrences,
) -> Result<Judged, NoMemory>
    requires rewrite { IsRewrite rewrite.now }
    requires sizes { HaveSizes rewrite.now }
    requires begun { IsBegun occurrences.old }
    requires pattern { occurrences.old.pattern ≡ rewrite.now.left }
    requires graph { occurrences.old.graph ≡ rewrite.now.from }
    ensures { IfOk result (IsTried rewrite.now) }
{
    let edges = rewrite.to.edge_count();
    let wires = rewrite.to.wire_count();
    let mut scratch = Scratch::for_sizes(alloc, edges, wires)?;
    let mut known = none_known();
    let mut tried = 0;
    while let Some(at) = occurrences.next() {
        known = learn(alloc, rewrite, tried, known)?;
        if reaches(&mut scratch, rewrite, &known, at)? {
            return Ok(Judged::Good);
        }
        tried += 1;
    }
    Ok(Judged::NoRewrite { occurrences: tried })
}

/// The differences that are known once so many occurrences have been tried: those of the two graphs
/// are looked for once, when the first occurrence has been tried in vain.
fn learn(
    alloc: Global,
    rewrite: &Rewrite,
    tried: u64,
    known: Differences,
) -> Result<Differences, NoMemory>
    requires rewrite { IsRewrite rewrite.now }
    requires known { AreDifferences rewrite.now known }
    ensures { IfOk result (AreDifferences rewrite.now) }
{
    if tried == 1 {
        return find_differences(alloc, rewrite);
    }
    Ok(known)
}

/// Whether the one graph, with this occurrence replaced, is isomorphic to the other one. The graph
/// with the occurrence replaced is made only where no difference that is known rules it out.
fn reaches(
    scratch: &mut Scratch,
    rewrite: &Rewrite,
    known: &Differences,
    at: &Occurrence,
) -> Result<bool, NoMemory>
    requires rewrite { IsRewrite rewrite.now }
    requires sizes { HaveSizes rewrite.now }
    requires known { AreDifferences rewrite.now known.now }
    requires room { HasRoomFor scratch.old.edges scratch.old.wires rewrite.now.to }
    requires occurs { IsOccurrence rewrite.now.left.graph rewrite.now.from at.now.edges at.now.wires }
    ensures same { scratch.new ≡ scratch.old }
    ensures outcome { IfOk result (λ outcome. MatchBool outcome (Reaches rewrite.now at.now) (Reaches rewrite.now at.now → ⊥)) }
{
    if is_ruled_out(rewrite, known, at) {
        return Ok(false);
    }
    is_reached(scratch, rewrite, at)
}

/// Whether the one graph, with this occurrence replaced, is isomorphic to the other one.
fn is_reached(scratch: &mut Scratch, rewrite: &Rewrite, at: &Occurrence) -> Result<bool, NoMemory>
    requires rewrite { IsRewrite rewrite.now }
    requires sizes { HaveSizes rewrite.now }
    requires room { HasRoomFor scratch.old.edges scratch.old.wires rewrite.now.to }
    requires occurs { IsOccurrence rewrite.now.left.graph rewrite.now.from at.now.edges at.now.wires }
    ensures same { scratch.new ≡ scratch.old }
    ensures outcome { IfOk result (λ outcome. MatchBool outcome (Reaches rewrite.now at.now) (Reaches rewrite.now at.now → ⊥)) }
{
    let alloc = rewrite.from.allocator();
    let new = replace(alloc, &rewrite.from, &rewrite.left, &rewrite.right, at)?;
    Ok(same(scratch, &rewrite.to, &new).is_some())
}
