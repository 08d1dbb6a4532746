// Lists under names.
ghost use Rattle.std.specs.Prelude.{◌≡◌, ◌≢◌, ℕ, ◌+◌, ◌<◌, ◌≤◌, List, [], ◌∷◌, ◌++◌, IsSome, None, OnOk, length, remove};
ghost use Rattle.std.specs.Map.{lookup};
ghost use Rattle.std.specs.Str.{bytes_eq};
ghost use Rattle.chyp_store.specs.Lists.{list_of, room_of};

use chyp_base::{Name, NoMemory};
use indexmap::IndexMap;
use std::alloc::Global;
use std::marker::Model;

/// A list under each name, which is empty under a name that none was put under.
#[derive(Drop)]
pub struct Lists<T> {
    lists: IndexMap<Name, Vec<T>>,
}

impl<T> Model for Lists<T> {
    ghost use Rattle.std.specs.Prelude.{List, ℕ};
    ghost use Rattle.std.specs.Coded.{coded_list, coded×, coded_ℕ};
    ghost use Rattle.chyp_store.specs.Lists.{Row, row_code, rows_of};

    ghost Value = { List (List ℕ × Row T) };

    ghost coded = { coded_list (coded× (coded_list coded_ℕ) (row_code T.code)) };

    ghost view = { λ l. rows_of l.lists.entries };
}

impl<T: Drop> Lists<T> {
    /// Empty lists. It takes no memory.
    pub fn new(alloc: Global) -> Lists<T>
        ensures { result ≡ [] }
    {
        Lists {
            lists: IndexMap::new(alloc),
        }
    }

    /// The list under this name.
    pub fn get(&self, name: &Name) -> &[T]
        ensures { result.now ≡ list_of name.now self.now }
    {
        match self.lists.get(name) {
            Some(list) => list,
            None => &[],
        }
    }

    /// Takes the memory for so many more items in the list under this name.
    pub fn reserve(&mut self, name: &Name, more: usize) -> Result<(), NoMemory>
        ensures kept { (n : List ℕ) → list_of n self.new ≡ list_of n self.old }
        ensures rooms { (n : List ℕ) → room_of n self.old ≤ room_of n self.new }
        ensures room { OnOk result (more ≤ room_of name.now self.new) }
    {
        self.open(name)?;
        self.widen(name, more)
    }

    /// Makes an empty list under this name, where there is none.
    fn open(&mut self, name: &Name) -> Result<(), NoMemory>
        ensures kept { (n : List ℕ) → list_of n self.new ≡ list_of n self.old }
        ensures rooms { (n : List ℕ) → room_of n self.old ≤ room_of n self.new }
        ensures there { OnOk result (IsSome (lookup (bytes_eq name.now) self.new)) }
    {
        match self.lists.get(name) {
            Some(_) => Ok(()),
            None => self.put(name.share()?),
        }
    }

    /// Makes an empty list under a name that has none.
    fn put(&mut self, name: Name) -> Result<(), NoMemory>
        requires { lookup (bytes_eq name) self.old ≡ None }
        ensures kept { (n : List ℕ) → list_of n self.new ≡ list_of n self.old }
        ensures rooms { (n : List ℕ) → room_of n self.old ≤ room_of n self.new }
        ensures there { OnOk result (IsSome (lookup (bytes_eq name) self.new)) }
    {
        let alloc = *self.lists.allocator();
        match self.lists.insert(name, Vec::new(alloc)) {
            Ok(_) => Ok(()),
            Err(_) => Err(NoMemory),
        }
    }

    /// Takes the memory for so many more items in a list that is there.
    fn widen(&mut self, name: &Name, more: usize) -> Result<(), NoMemory>
        requires { IsSome (lookup (bytes_eq name.now) self.old) }
        ensures kept { (n : List ℕ) → list_of n self.new ≡ list_of n self.old }
        ensures rooms { (n : List ℕ) → room_of n self.old ≤ room_of n self.new }
        ensures room { OnOk result (more ≤ room_of name.now self.new) }
    {
        match self.lists.get_mut(name) {
            Some(list) => match list.reserve(more) {
                Ok(()) => return Ok(()),
                Err(_) => return Err(NoMemory),
            },
            None => return Ok(()),
        }
    }

    /// Puts an item behind the others under this name. It takes no memory.
    pub fn push(&mut self, name: &Name, item: T)
        requires { 0 < room_of name.now self.old }
        ensures pushed { list_of name.now self.new ≡ list_of name.now self.old ++ item ∷ [] }
        ensures others { (n : List ℕ) → n ≢ name.now → list_of n self.new ≡ list_of n self.old }
        ensures room { room_of name.now self.new + 1 ≡ room_of name.now self.old }
        ensures other_rooms { (n : List ℕ) → n ≢ name.now → room_of n self.new ≡ room_of n self.old }
    {
        match self.lists.get_mut(name) {
            Some(list) => {
                list.push_reserved(item);
                return;
            }
            None => return,
        }
    }

    /// Takes out the item at this place under this name.
    pub fn remove(&mut self, name: &Name, place: usize)
        requires { place < length (list_of name.now self.old) }
        ensures removed { list_of name.now self.new ≡ remove (list_of name.now self.old) place }
        ensures others { (n : List ℕ) → n ≢ name.now → list_of n self.new ≡ list_of n self.old }
        ensures rooms { (n : List ℕ) → room_of n self.old ≤ room_of n self.new }
    {
        match self.lists.get_mut(name) {
            Some(list) => {
                list.remove(place);
                return;
            }
            None => return,
        }
    }
}
