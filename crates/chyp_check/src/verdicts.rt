// Lists of verdicts.
ghost use Rattle.std.specs.Prelude.{◌≡◌};

use chyp_base::Verdict;
use std::marker::Model;

/// A list of verdicts, seen by contracts as that list.
#[derive(Debug, Drop)]
pub struct Verdicts {
    items: Vec<Verdict>,
}

impl Model for Verdicts {
    ghost use Rattle.std.specs.Prelude.{List};
    ghost use Rattle.chyp_base.specs.declared.verdict.Verdict.{Verdict};

    ghost Value = { List Verdict };

    ghost view = { λ v. v.items.items };
}

impl Verdicts {
    /// The list of these verdicts. It takes no memory.
    pub fn from_vec(verdicts: Vec<Verdict>) -> Verdicts
        ensures { result ≡ verdicts.items }
    {
        Verdicts { items: verdicts }
    }

    /// The verdicts, in order.
    pub fn as_slice(&self) -> &[Verdict]
        ensures { result.now ≡ self.now }
    {
        &self.items
    }

    /// The verdicts, in order, as they are kept. It takes no memory.
    pub fn into_vec(self) -> Vec<Verdict>
        ensures { result.items ≡ self }
    {
        self.items
    }
}
