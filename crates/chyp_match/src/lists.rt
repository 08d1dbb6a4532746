// Lists under names.
ghost use Rattle.std.specs.Prelude.{◌≡◌, ◌≢◌, ℕ, List, [], ◌∷◌, ◌++◌, IsSome, None, OnOk};
ghost use Rattle.std.specs.Map.{lookup};
ghost use Rattle.std.specs.Str.{bytes_eq};
ghost use Rattle.chyp_match.specs.Lists.{list_of};

use chyp_base::{Name, NoMemory};
use indexmap::IndexMap;
use std::alloc::Global;
use std::marker::Model;

/// A list under each name, which is empty under a name that none was put under.
#[derive(Drop)]
pub(crate) struct Lists<T> {
    lists: IndexMap<Name, Vec<T>>,
}

impl<T> Model for Lists<T> {
    ghost use Rattle.std.specs.Prelude.{List, ℕ};
    ghost use Rattle.std.specs.Coded.{coded_list, coded×, coded_ℕ};
    ghost use Rattle.chyp_match.specs.Lists.{rows_of};

    ghost Value = { List (List ℕ × List T) };

    ghost coded = { coded_list (coded× (coded_list coded_ℕ) (coded_list T.code)) };

    ghost view = { λ l. rows_of l.lists.entries };
}

impl<T: Drop> Lists<T> {
    /// Empty lists. It takes no memory.
    pub(crate) fn new(alloc: Global) -> Lists<T>
        ensures { result ≡ [] }
    {
        Lists {
            lists: IndexMap::new(alloc),
        }
    }

    /// The list under this name.
    pub(crate) fn get(&self, name: &Name) -> &[T]
        ensures { result.now ≡ list_of name.now self.now }
    {
        match self.lists.get(name) {
            Some(list) => list,
            None => &[],
        }
    }

    /// Puts an item behind the others under this name.
    pub(crate) fn add(&mut self, name: &Name, item: T) -> Result<(), NoMemory>
        ensures added { OnOk result (list_of name.now self.new ≡ list_of name.now self.old ++ item ∷ []) }
        ensures others { OnOk result ((n : List ℕ) → n ≢ name.now → list_of n self.new ≡ list_of n self.old) }
    {
        self.open(name)?;
        self.push(name, item)
    }

    /// Makes an empty list under this name, where there is none.
    fn open(&mut self, name: &Name) -> Result<(), NoMemory>
        ensures kept { (n : List ℕ) → list_of n self.new ≡ list_of n self.old }
        ensures there { OnOk result (IsSome (lookup (bytes_eq name.now) self.new)) }
    {
        match self.lists.get(name) {
            Some(_) => Ok(()),
            None => self.put(name.share()?),
        }
    }

    /// Makes an empty list under a name that has none.
    fn put(&mut self, name: Name) -> Result<(), NoMemory>
        requires { lookup (bytes_eq name) self.old ≡ None }
        ensures kept { (n : List ℕ) → list_of n self.new ≡ list_of n self.old }
        ensures there { OnOk result (IsSome (lookup (bytes_eq name) self.new)) }
    {
        let alloc = *self.lists.allocator();
        match self.lists.insert(name, Vec::new(alloc)) {
            Ok(_) => Ok(()),
            Err(_) => Err(NoMemory),
        }
    }

    /// Puts an item behind the others of a list that is there.
    fn push(&mut self, name: &Name, item: T) -> Result<(), NoMemory>
        requires { IsSome (lookup (bytes_eq name.now) self.old) }
        ensures added { OnOk result (list_of name.now self.new ≡ list_of name.now self.old ++ item ∷ []) }
        ensures others { OnOk result ((n : List ℕ) → n ≢ name.now → list_of n self.new ≡ list_of n self.old) }
    {
        match self.lists.get_mut(name) {
            Some(list) => match list.push(item) {
                Ok(()) => return Ok(()),
                Err(_) => return Err(NoMemory),
            },
            None => return Ok(()),
        }
    }
}
