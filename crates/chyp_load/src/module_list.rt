// The modules that were read so far.
ghost use Rattle.std.specs.Prelude.{◌≡◌, ◌↔◌, ◌++◌, ◌∷◌, ◌≤◌, ◌<◌, ◌+◌, [], IfOk, IfSome, OnOk, OnErr, IsTrue, IsErrOf, IsSome, Err, Contains};
ghost use Rattle.chyp_modules.specs.Checking.{AreDistinct, most_modules};
ghost use Rattle.chyp_load.specs.Loading.{count_there, names_of, one_there};

use crate::{LoadError, ModuleText};
use chyp_base::{Name, NoMemory};
use indexmap::IndexMap;
use std::alloc::Global;
use std::marker::Model;

/// The modules that were read, each name once, with its text or with none where there is no such module;
/// no more than 64 are there.
#[derive(Drop)]
pub struct ModuleList {
    modules: IndexMap<Name, Option<ModuleText>>,
    there: usize,
}

impl Model for ModuleList {
    ghost use Rattle.std.specs.Prelude.{◌≡◌, ◌≤◌, List};
    ghost use Rattle.chyp_modules.specs.Library.{Module};
    ghost use Rattle.chyp_modules.specs.Checking.{AreDistinct, most_modules};
    ghost use Rattle.chyp_load.specs.Loading.{count_there, names_of};

    ghost Value = { List Module };

    ghost view = { λ m. m.modules.entries };

    ghost invariant = { λ m. AreDistinct (names_of m.modules.entries) × (m.there ≡ count_there m.modules.entries)
        × (m.there ≤ most_modules) };
}

/// The most modules that may be there.
pub const MAX_MODULES: usize = 64;

// One for a text that is there, zero for none.
fn one_there(text: &Option<ModuleText>) -> usize
    ensures { result ≡ one_there text.now }
{
    match text {
        Some(_) => 1,
        None => 0,
    }
}

impl ModuleList {
    /// No module. It takes no memory.
    pub fn new(alloc: Global) -> ModuleList
        ensures { result ≡ [] }
    {
        ModuleList {
            modules: IndexMap::new(alloc),
            there: 0,
        }
    }

    /// Whether this name was read. It takes constant time on average.
    pub fn contains(&self, name: &Name) -> bool
        ensures { IsTrue result ↔ Contains (names_of self.now) name.now }
    {
        self.modules.contains_key(name)
    }

    /// Appends what a library has of a name that was not read yet.
    ///
    /// # Errors
    ///
    /// `TooLong` exactly where it would be the 65th module that is there; `NoMemory` where it can't be
    /// kept.
    pub fn push(&mut self, name: Name, text: Option<ModuleText>) -> Result<(), LoadError>
        requires fresh { ¬ Contains (names_of self.old) name }
        ensures ok { OnOk result (self.new ≡ self.old ++ (name, text) ∷ []) }
        ensures many { IsErrOf result LoadError.TooLong ↔ (most_modules < count_there self.old + one_there text) }
        ensures faultless { ¬ IsErrOf result LoadError.Failed }
    {
        let there = self.there + one_there(&text);
        if there > MAX_MODULES {
            return Err(LoadError::TooLong);
        }
        match self.modules.insert(name, text) {
            Ok(_) => {
                self.there = there;
                Ok(())
            }
            Err(_) => Err(LoadError::NoMemory),
        }
    }

    /// The names are distinct, and no more modules are there than are allowed.
    pub fn sound(&self)
        ensures distinct { AreDistinct (names_of self.now) }
        ensures few { count_there self.now ≤ most_modules }
    {
        let _ = &self.modules;
    }

    /// The modules in the order in which they were read.
    ///
    /// # Errors
    ///
    /// `NoMemory` where the list of them can't be kept.
    pub fn into_vec(self) -> Result<Vec<(Name, Option<ModuleText>)>, NoMemory>
        ensures { IfOk result (λ modules. modules.items ≡ self) }
    {
        let alloc = *self.modules.allocator();
        Ok(self.modules.into_iter().collect(alloc)?)
    }
}
