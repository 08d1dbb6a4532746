// Room to compare graphs in.
ghost use Rattle.std.specs.Prelude.{◌≡◌, ◌≤◌, IfOk};
ghost use Rattle.chyp_iso.specs.Scratch.{Sizes};

use crate::room::Room;
use chyp_base::NoMemory;
use std::alloc::Global;
use std::marker::Model;

/// Room to compare graphs in, made for graphs of so many edges and wires: contracts see these two
/// numbers, which only [`Scratch::make_room`] changes.
#[derive(Debug, Drop)]
pub struct Scratch {
    pub(crate) room: Room,
}

impl Model for Scratch {
    ghost use Rattle.chyp_iso.specs.Scratch.{Sizes};

    ghost Value = { Sizes };

    ghost view = { λ s. record { edges = s.room.edges; wires = s.room.wires } };
}

impl Scratch {
    /// Room for graphs of at most these many edges and wires.
    ///
    /// # Errors
    ///
    /// `NoMemory` where it can't be kept.
    pub fn for_sizes(alloc: Global, edges: u32, wires: u32) -> Result<Scratch, NoMemory>
        ensures { IfOk result (λ scratch. scratch ≡ record { edges = edges; wires = wires }) }
    {
        Ok(Scratch {
            room: Room::new(alloc, edges, wires)?,
        })
    }

    /// Makes this room one for graphs of at least these many edges and wires. It takes memory and time
    /// only where it isn't yet; then it at least doubles what was too small, so that a room for many
    /// comparisons is made anew a few times in all.
    ///
    /// # Errors
    ///
    /// `NoMemory` where it can't be kept.
    pub fn make_room(&mut self, alloc: Global, edges: u32, wires: u32) -> Result<(), NoMemory>
        ensures edges { IfOk result (λ _. edges ≤ self.new.edges) }
        ensures wires { IfOk result (λ _. wires ≤ self.new.wires) }
        ensures enough { edges ≤ self.old.edges → wires ≤ self.old.wires → self.new ≡ self.old }
    {
        let (old_edges, old_wires) = self.room.sizes();
        if edges as usize > old_edges || wires as usize > old_wires {
            self.room = Room::new(alloc, grown(old_edges, edges), grown(old_wires, wires))?;
        }
        Ok(())
    }
}

/// A size of room for this many items: the old one where it is enough, and else at least twice the old
/// one.
fn grown(old: usize, needed: u32) -> u32
    ensures { needed ≤ result }
{
    let Ok(old) = u32::try_from(old) else {
        return u32::MAX;
    };
    if needed <= old {
        return old;
    }
    needed.max(old.saturating_mul(2))
}
