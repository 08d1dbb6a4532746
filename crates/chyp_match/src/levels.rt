// Stacks of levels.
ghost use Rattle.std.specs.Prelude.{◌≡◌, ◌<◌, ◌++◌, [], ◌∷◌, IfNone, IfOk, IfSome, length};
ghost use Rattle.chyp_match.specs.Levels.{Stack};

use crate::level::Level;
use chyp_base::NoMemory;
use std::alloc::Global;
use std::marker::Model;

/// The components that have images, in order, and how many there may be.
#[derive(Debug, Drop)]
pub(crate) struct Levels {
    items: Vec<Level>,
    room: usize,
}

impl Model for Levels {
    ghost use Rattle.std.specs.Prelude.{◌≤◌, length};
    ghost use Rattle.std.specs.Vec.{vec_capacity};
    ghost use Rattle.chyp_match.specs.Levels.{Stack};

    ghost Value = { Stack };

    ghost view = { λ s. record { levels = s.items.items; room = s.room } };

    ghost invariant = { λ s. s.room ≤ vec_capacity s.items };
}

impl Levels {
    /// No level yet, and room for so many.
    pub(crate) fn new(alloc: Global, room: usize) -> Result<Levels, NoMemory>
        ensures { IfOk result (λ levels. levels ≡ record { levels = []; room = room }) }
    {
        Ok(Levels {
            items: Vec::with_capacity(alloc, room)?,
            room,
        })
    }

    /// The number of levels.
    pub(crate) fn len(&self) -> usize
        ensures { result ≡ length self.now.levels }
    {
        self.items.len()
    }

    /// Adds a level. It takes no memory.
    pub(crate) fn push(&mut self, level: Level)
        requires { length self.old.levels < self.old.room }
        ensures { self.new ≡ record self.old { levels = self.old.levels ++ level ∷ [] } }
    {
        self.items.push_reserved(level);
    }

    /// Takes the last level away.
    pub(crate) fn pop(&mut self) -> Option<Level>
        ensures some { IfSome result (λ level. self.old ≡ record self.new { levels = self.new.levels ++ level ∷ [] }) }
        ensures none { IfNone result ((self.old.levels ≡ []) × (self.new ≡ self.old)) }
    {
        self.items.pop()
    }
}
