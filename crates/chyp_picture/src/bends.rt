// Lists of bends.
ghost use Rattle.std.specs.Prelude.{◌≡◌};

use crate::Point;
use std::marker::Model;

/// A list of bends, seen by contracts as that list.
#[derive(Debug, Drop)]
pub struct Bends {
    items: Vec<Point>,
}

impl Model for Bends {
    ghost use Rattle.std.specs.Prelude.{List};
    ghost use Rattle.chyp_picture.specs.declared.point.Point.{Point};

    ghost Value = { List Point };

    ghost view = { λ list. list.items.items };
}

impl Bends {
    /// The list of these bends. It takes no memory.
    pub fn from_vec(items: Vec<Point>) -> Bends
        ensures { result ≡ items.items }
    {
        Bends { items }
    }

    /// The bends, in order.
    pub fn as_slice(&self) -> &[Point]
        ensures { result.now ≡ self.now }
    {
        &self.items
    }

    /// Gives the bends back. It takes no memory.
    pub fn into_vec(self) -> Vec<Point>
        ensures { result.items ≡ self }
    {
        self.items
    }
}
