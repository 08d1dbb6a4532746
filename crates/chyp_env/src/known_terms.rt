// Lists of known terms.
ghost use Rattle.std.specs.Prelude.{◌≡◌};

use crate::KnownTerm;
use std::marker::Model;

/// A list of known terms, seen by contracts as the list of their terms.
#[derive(Debug, Drop)]
pub struct KnownTerms {
    items: Vec<KnownTerm>,
}

impl Model for KnownTerms {
    ghost use Rattle.std.specs.Prelude.{List};
    ghost use Rattle.std.specs.Coded.{coded_list};
    ghost use Rattle.chyp_env.specs.Coded.{morphism_code};
    ghost use Rattle.chyp_term.specs.Morphism.{Morphism};

    ghost Value = { List Morphism };

    ghost coded = { coded_list morphism_code };

    ghost view = { λ s. s.items.items };
}

impl KnownTerms {
    /// The list of these terms. It takes no memory.
    pub fn from_vec(terms: Vec<KnownTerm>) -> KnownTerms
        ensures { result ≡ terms.items }
    {
        KnownTerms { items: terms }
    }

    /// The terms, in order.
    pub fn as_slice(&self) -> &[KnownTerm]
        ensures { result.now ≡ self.now }
    {
        &self.items
    }

    /// Gives the terms back. It takes no memory.
    pub fn into_vec(self) -> Vec<KnownTerm>
        ensures { result.items ≡ self }
    {
        self.items
    }
}
