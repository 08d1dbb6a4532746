// The modules that a text may import.
ghost use Rattle.std.specs.Prelude.{◌≡◌};
ghost use Rattle.chyp_modules.specs.Checking.{AreDistinct};
ghost use Rattle.chyp_load.specs.Loading.{names_of};

use chyp_base::{Name, Text};
use std::marker::Model;

/// Names of modules, no two the same, each with its text or with none where there is no such module.
/// Contracts see them as that list.
#[derive(Drop)]
pub struct Modules {
    list: Vec<(Name, Option<Text>)>,
}

impl Model for Modules {
    ghost use Rattle.std.specs.Prelude.{List};
    ghost use Rattle.chyp_modules.specs.Checking.{AreDistinct};
    ghost use Rattle.chyp_modules.specs.Library.{Module};
    ghost use Rattle.chyp_load.specs.Loading.{names_of};

    ghost Value = { List Module };

    ghost view = { λ m. m.list.items };

    ghost invariant = { λ m. AreDistinct (names_of m.list.items) };
}

impl Modules {
    /// The list of these modules. It takes no memory.
    pub fn new(list: Vec<(Name, Option<Text>)>) -> Modules
        requires { AreDistinct (names_of list.items) }
        ensures { result ≡ list.items }
    {
        Modules { list }
    }

    /// The modules, in order.
    pub fn as_slice(&self) -> &[(Name, Option<Text>)]
        ensures { result.now ≡ self.now }
    {
        &self.list
    }

    /// No name stands there twice.
    pub fn distinct(&self)
        ensures { AreDistinct (names_of self.now) }
    {
        let _ = &self.list;
    }
}
