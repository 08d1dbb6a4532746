// Lists of lines.
ghost use Rattle.std.specs.Prelude.{◌≡◌};

use crate::Line;
use std::marker::Model;

/// A list of lines, seen by contracts as that list.
#[derive(Debug, Drop)]
pub struct Lines {
    items: Vec<Line>,
}

impl Model for Lines {
    ghost use Rattle.std.specs.Prelude.{List};
    ghost use Rattle.chyp_picture.specs.declared.line.Line.{Line};

    ghost Value = { List Line };

    ghost view = { λ list. list.items.items };
}

impl Lines {
    /// The list of these lines. It takes no memory.
    pub fn from_vec(items: Vec<Line>) -> Lines
        ensures { result ≡ items.items }
    {
        Lines { items }
    }

    /// The lines, in order.
    pub fn as_slice(&self) -> &[Line]
        ensures { result.now ≡ self.now }
    {
        &self.items
    }

    /// Gives the lines back. It takes no memory.
    pub fn into_vec(self) -> Vec<Line>
        ensures { result.items ≡ self }
    {
        self.items
    }
}
