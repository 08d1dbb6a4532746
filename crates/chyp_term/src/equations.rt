// Lists of equations.
ghost use Rattle.std.specs.Prelude.{◌≡◌};

use crate::Equation;
use std::marker::Model;

/// A list of equations, seen by contracts as that list; `equations_of` of
/// `specs/Equation.antt` reads it as pairs of morphisms.
#[derive(Debug, Drop)]
pub struct Equations {
    items: Vec<Equation>,
}

impl Model for Equations {
    ghost use Rattle.std.specs.Prelude.{List};
    ghost use Rattle.std.specs.Coded.{codes};
    ghost use Rattle.chyp_term.specs.contracts.term.Term as term;
    ghost use Rattle.chyp_term.specs.declared.equation.Equation.{Equation};

    ghost Value = { List Equation };

    ghost coded = { Prim.hlevel (codes, term.the_row.coded) };

    ghost view = { λ s. s.items.items };
}

impl Equations {
    /// The list of these equations. It takes no memory.
    pub fn from_vec(equations: Vec<Equation>) -> Equations
        ensures { result ≡ equations.items }
    {
        Equations { items: equations }
    }

    /// The equations, in order.
    pub fn as_slice(&self) -> &[Equation]
        ensures { result.now ≡ self.now }
    {
        &self.items
    }

    /// Gives the equations back. It takes no memory.
    pub fn into_vec(self) -> Vec<Equation>
        ensures { result.items ≡ self }
    {
        self.items
    }
}
