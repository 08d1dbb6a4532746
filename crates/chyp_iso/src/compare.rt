// Isomorphism of graphs.
ghost use Rattle.std.specs.Prelude.{◌≡◌, IfNone, IfSome, IsSome, ⊤};
ghost use Rattle.std.specs.Borrow.{follows_so, sem};
ghost use mathlib.Core.Option.{none};
ghost use Rattle.chyp_graph.specs.Isomorphism.{Isomorphic};
ghost use Rattle.chyp_iso.specs.IsIsomorphism.{IsIsomorphism};
ghost use Rattle.chyp_iso.specs.Scratch.{HasRoomFor};
ghost use Rattle.chyp_iso.specs.contracts.scratch.Scratch.{the_row};

use crate::{Iso, Scratch};
use chyp_graph::Graph;

/// An isomorphism from the one graph to the other that keeps names, sorts, ports by position, and
/// both interfaces place by place; None where there is none. It takes no memory. What hangs on the
/// interfaces is followed once; a part without interface is tried once at each edge of the other graph,
/// until it fits.
pub fn same<'s>(scratch: &'s mut Scratch, a: &Graph, b: &Graph) -> Option<Iso<'s>>
    requires first { HasRoomFor scratch.old.edges scratch.old.wires a.now }
    requires second { HasRoomFor scratch.old.edges scratch.old.wires b.now }
    ensures some { IfSome result (λ iso. IsIsomorphism a.now b.now iso.edges.now iso.wires.now) }
    ensures isomorphic { IsSome result → Isomorphic a.now b.now }
    ensures none { IfNone result (Isomorphic a.now b.now → ⊥) }
    ensures* after { sem 𝓛 (follows_so the_row the_row scratch.entry.ghost_name none (λ _ _. ⊤) (λ v. v ≡ scratch.old)) }
{
    let room = &mut scratch.room;
    if !room.find(a, b) {
        return None;
    }
    Some(room.iso(a))
}
