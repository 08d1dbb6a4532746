// Kinds of wire.
ghost use Rattle.std.specs.Prelude.{◌≡◌, ◌↔◌, IfOk, IsTrue};
ghost use Rattle.std.specs.Cmp.{partial_equiv_from_equiv};

use crate::{Name, NoMemory};
use std::alloc::{AllocError, Global};

/// A kind of wire: a colour of a coloured PROP.
#[derive(Debug, Drop)]
pub struct Sort {
    /// The name of the sort. The plain wire has the empty name.
    pub name: Name,
}

impl Sort {
    ghost use Rattle.chyp_base.specs.Sort.{plain};

    /// The sort of the plain wire.
    ///
    /// # Errors
    ///
    /// `NoMemory` where its name can't be kept.
    pub fn plain(alloc: Global) -> Result<Sort, NoMemory>
        ensures { IfOk result (λ sort. sort ≡ plain) }
    {
        Ok(Sort {
            name: Name::new(alloc, "")?,
        })
    }

    /// An equal sort, which shares its name with this one.
    ///
    /// # Errors
    ///
    /// `NoMemory` where the name can't be shared once more.
    pub fn share(&self) -> Result<Sort, NoMemory>
        ensures { IfOk result (λ sort. sort ≡ self.now) }
    {
        Ok(self.clone()?)
    }
}

/// Sorts are equal where their names are.
impl PartialEq for Sort {
    ghost use Rattle.chyp_base.specs.Sort.{same_sort, same_sort_equiv};

    ghost eq = { same_sort };

    ghost laws = { partial_equiv_from_equiv same_sort_equiv };

    fn eq(&self, other: &Sort) -> bool
        ensures test { result ≡ same_sort self.now other.now }
        ensures same { IsTrue result ↔ (self.now ≡ other.now) }
    {
        self.name == other.name
    }
}

impl Eq for Sort {
    ghost use Rattle.chyp_base.specs.Sort.{same_sort_equiv};

    ghost laws = { same_sort_equiv };
}

impl Clone for Sort {
    ghost is_clone = { λ sort copy. copy ≡ sort };

    fn clone(&self) -> Result<Sort, AllocError> {
        Ok(Sort {
            name: self.name.clone()?,
        })
    }
}
