// Where two graphs differ.
ghost use Rattle.std.specs.Prelude.{All, ◌≡◌, ℕ, ◌<◌, IfOk, IfSome, Some, length, slice_get, true, ⊤};
ghost use Rattle.std.specs.Bool.{MatchBool};
ghost use Rattle.chyp_term.specs.Positions.{is_apart};
ghost use Rattle.chyp_judge.specs.Rewrite.{IsRewrite};
ghost use Rattle.chyp_judge.specs.Walk.{Begins, Differs, IsDifference, IsWalk, MayBegin};

use crate::partners::Partners;
use crate::rewrite::Rewrite;
use crate::walk::{Walk, add_all, begin, follow};
use chyp_base::NoMemory;
use chyp_graph::WireId;
use chyp_pattern::Occurrence;
use std::alloc::Global;

/// A path from the ends of a graph that is rewritten to where it differs from the one that is to come
/// out: an occurrence that has no wire on the path leaves the difference there.
#[derive(Drop)]
pub(crate) struct Difference {
    /// Whether each wire of the graph is on the path.
    pub(crate) path: Vec<bool>,
}

impl Difference {
    /// The path to the partners at a place, at which the graphs differ.
    fn at(alloc: Global, walk: &Walk, at: usize) -> Result<Difference, NoMemory>
        requires walk { IsWalk walk.now }
        requires at { at < length walk.now.partners.items }
        requires differs { (p : _) → slice_get walk.now.partners.items at ≡ Some p → Differs walk.now.rewrite.now p }
        ensures { IfOk result (λ difference. IsDifference walk.now.rewrite.now difference.path.items) }
    {
        let mut path = vec![in alloc; false; walk.wires.len()]?;
        let mut next = Some(at);
        while let Some(i) = next {
            let Partners { wire, origin, .. } = walk.partners[i];
            path[wire.0 as usize] = true;
            next = origin;
        }
        Ok(Difference { path })
    }

    /// The first difference on a walk from these ends.
    pub(crate) fn from_ends(
        alloc: Global,
        rewrite: &Rewrite,
        wires: &[WireId],
        partners: &[WireId],
    ) -> Result<Option<Difference>, NoMemory>
        requires rewrite { IsRewrite rewrite.now }
        requires ends { MayBegin rewrite.now partners.now wires.now }
        ensures { IfOk result (λ found. IfSome found (λ difference. IsDifference rewrite.now difference.path.items)) }
    {
        if partners.len() != wires.len() {
            return Ok(None);
        }
        let mut walk = begin(alloc, rewrite)?;
        add_all(&mut walk, wires, partners, None)?;
        first_difference(alloc, &mut walk)
    }

    /// Whether the occurrence has no wire on the path.
    pub(crate) fn is_spared_by(&self, at: &Occurrence) -> bool
        requires { All (λ w. w < length self.now.path.items) at.now.wires }
        ensures { MatchBool result ((w : ℕ) → slice_get self.now.path.items w ≡ Some true → is_apart at.now.wires w ≡ true) ⊤ }
    {
        for wire in at.wires.as_slice() {
            if self.path[wire.0 as usize] {
                return false;
            }
        }
        true
    }
}

/// The first difference that the walk comes to.
fn first_difference(alloc: Global, walk: &mut Walk) -> Result<Option<Difference>, NoMemory>
    requires { IsWalk walk.old }
    ensures { IfOk result (λ found. IfSome found (λ difference. IsDifference walk.old.rewrite.now difference.path.items)) }
{
    for at in 0..walk.wires.len() {
        if at >= walk.partners.len() {
            return Ok(None);
        }
        if !follow(walk, at)? {
            return Ok(Some(Difference::at(alloc, walk, at)?));
        }
    }
    Ok(None)
}
