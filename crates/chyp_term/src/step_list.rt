// Lists of steps.
ghost use Rattle.std.specs.Prelude.{◌≡◌};

use crate::Step;
use std::marker::Model;

/// A list of steps, seen by contracts as that list; `reasons_of` of `specs/Step.antt`
/// reads it without the boxes of its terms.
#[derive(Debug, Drop)]
pub struct StepList {
    items: Vec<Step>,
}

impl Model for StepList {
    ghost use Rattle.std.specs.Prelude.{List};
    ghost use Rattle.std.specs.Coded.{codes};
    ghost use Rattle.chyp_term.specs.contracts.term.Term as term;
    ghost use Rattle.chyp_term.specs.declared.step.Step.{Step};

    ghost Value = { List Step };

    ghost coded = { Prim.hlevel (codes, term.the_row.coded) };

    ghost view = { λ s. s.items.items };
}

impl StepList {
    /// The list of these steps. It takes no memory.
    pub fn from_vec(steps: Vec<Step>) -> StepList
        ensures { result ≡ steps.items }
    {
        StepList { items: steps }
    }

    /// The steps, in order.
    pub fn as_slice(&self) -> &[Step]
        ensures { result.now ≡ self.now }
    {
        &self.items
    }

    /// Gives the steps back. It takes no memory.
    pub fn into_vec(self) -> Vec<Step>
        ensures { result.items ≡ self }
    {
        self.items
    }
}
