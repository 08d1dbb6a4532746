// The modules that were read.
ghost use Rattle.std.specs.Prelude.{◌≡◌};
ghost use Rattle.chyp_modules.specs.Checking.{AreDistinct};
ghost use Rattle.chyp_load.specs.Loading.{names_of};

use crate::ModuleText;
use chyp_base::Name;
use std::marker::Model;

/// Names of modules, no two the same, each with its text and what that imports, or with none where there is
/// no such module. Contracts see them as the list of the names with their texts.
#[derive(Drop)]
pub struct ReadModules {
    list: Vec<(Name, Option<ModuleText>)>,
}

impl Model for ReadModules {
    ghost use Rattle.std.specs.Prelude.{List};
    ghost use Rattle.chyp_modules.specs.Checking.{AreDistinct};
    ghost use Rattle.chyp_modules.specs.Library.{Module};
    ghost use Rattle.chyp_load.specs.Loading.{names_of};

    ghost Value = { List Module };

    ghost view = { λ m. m.list.items };

    ghost invariant = { λ m. AreDistinct (names_of m.list.items) };
}

impl ReadModules {
    /// The list of these modules. It takes no memory.
    pub fn new(list: Vec<(Name, Option<ModuleText>)>) -> ReadModules
        requires { AreDistinct (names_of list.items) }
        ensures { result ≡ list.items }
    {
        ReadModules { list }
    }

    /// The modules, in order.
    pub fn as_slice(&self) -> &[(Name, Option<ModuleText>)]
        ensures { result.now ≡ self.now }
    {
        &self.list
    }

    /// No name stands there twice.
    pub fn distinct(&self)
        ensures { AreDistinct (names_of self.now) }
    {
        let _ = &self.list;
    }
}
