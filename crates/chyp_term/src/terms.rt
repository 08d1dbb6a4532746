// Lists of terms.
ghost use Rattle.std.specs.Prelude.{◌≡◌};

use crate::Term;
use std::marker::Model;

/// A list of terms, seen by contracts as that list; `morphisms_of` of
/// `specs/Term.antt` reads it as morphisms.
#[derive(Debug, Drop)]
pub struct Terms {
    items: Vec<Term>,
}

impl Model for Terms {
    ghost use Rattle.std.specs.Prelude.{List};
    ghost use Rattle.std.specs.Coded.{codes};
    ghost use Rattle.chyp_term.specs.contracts.term.Term as term;
    ghost use Rattle.chyp_term.specs.declared.term.Term.{Term};

    ghost Value = { List Term };

    ghost coded = { Prim.hlevel (codes, term.the_row.coded) };

    ghost view = { λ s. s.items.items };
}

impl Terms {
    /// The list of these terms. It takes no memory.
    pub fn from_vec(terms: Vec<Term>) -> Terms
        ensures { result ≡ terms.items }
    {
        Terms { items: terms }
    }

    /// The terms, in order.
    pub fn as_slice(&self) -> &[Term]
        ensures { result.now ≡ self.now }
    {
        &self.items
    }

    /// Gives the terms back. It takes no memory.
    pub fn into_vec(self) -> Vec<Term>
        ensures { result.items ≡ self }
    {
        self.items
    }
}
