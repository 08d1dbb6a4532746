// The bends of a wire, as they are found.
ghost use Rattle.std.specs.Prelude.{◌≡◌, [], ◌∷◌, ◌++◌, IfOk};

use chyp_base::NoMemory;
use chyp_picture::{Bends, Point};
use std::alloc::Global;
use std::marker::Model;

/// The bends of a wire, from the left to the right.
#[derive(Debug, Drop)]
pub(crate) struct Trail {
    bends: Vec<Point>,
}

impl Model for Trail {
    ghost use Rattle.std.specs.Prelude.{List};
    ghost use Rattle.chyp_picture.specs.declared.point.Point.{Point};

    ghost Value = { List Point };

    ghost view = { λ trail. trail.bends.items };
}

impl Trail {
    /// No bend. It takes no memory.
    pub(crate) fn new(alloc: Global) -> Trail
        ensures { result ≡ [] }
    {
        Trail {
            bends: Vec::new(alloc),
        }
    }

    /// Adds a bend on the right.
    pub(crate) fn push(&mut self, bend: Point) -> Result<(), NoMemory>
        ensures { IfOk result (λ _. self.new ≡ self.old ++ bend ∷ []) }
    {
        Ok(self.bends.push(bend)?)
    }

    /// The same bends.
    pub(crate) fn bends(&self, alloc: Global) -> Result<Bends, NoMemory>
        ensures { IfOk result (λ bends. bends ≡ self.now) }
    {
        Ok(Bends::from_vec(Vec::from_slice(alloc, &self.bends)?))
    }
}
