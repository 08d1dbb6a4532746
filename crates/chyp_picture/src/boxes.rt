// Lists of boxes.
ghost use Rattle.std.specs.Prelude.{◌≡◌};

use crate::BoxAt;
use std::marker::Model;

/// A list of boxes, seen by contracts as that list.
#[derive(Debug, Drop)]
pub struct Boxes {
    items: Vec<BoxAt>,
}

impl Model for Boxes {
    ghost use Rattle.std.specs.Prelude.{List};
    ghost use Rattle.chyp_picture.specs.declared.box_at.BoxAt.{BoxAt};

    ghost Value = { List BoxAt };

    ghost view = { λ list. list.items.items };
}

impl Boxes {
    /// The list of these boxes. It takes no memory.
    pub fn from_vec(items: Vec<BoxAt>) -> Boxes
        ensures { result ≡ items.items }
    {
        Boxes { items }
    }

    /// The boxes, in order.
    pub fn as_slice(&self) -> &[BoxAt]
        ensures { result.now ≡ self.now }
    {
        &self.items
    }

    /// Gives the boxes back. It takes no memory.
    pub fn into_vec(self) -> Vec<BoxAt>
        ensures { result.items ≡ self }
    {
        self.items
    }
}
