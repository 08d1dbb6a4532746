// Entries by their names.
ghost use Rattle.std.specs.Prelude.{◌≡◌, ◌<◌, [], ◌∷◌, ◌++◌, All, false, length, slice_get, IfSome, IfNone, IfOk, OnOk, OnErr, Some, None};
ghost use Rattle.chyp_env.specs.Entry.{entry_of, sense_of};
ghost use Rattle.chyp_env.specs.Environment.{binding_of, is_bound};
ghost use Rattle.chyp_env.specs.Sound.{IsSound, IsSoundSense};

use crate::Entry;
use crate::spelling::Spelling;
use chyp_base::{Name, NoMemory};
use indexmap::IndexMap;
use std::alloc::Global;
use std::marker::Model;
use std::rc::Rc;

/// Entries with what is found under their names, in the order in which they came. They may be shared with
/// other lists. Contracts see them as the list of their bindings, which is sound.
#[derive(Drop)]
pub(crate) struct Entries {
    map: IndexMap<Name, Rc<Entry>>,
}

impl Model for Entries {
    ghost use Rattle.std.specs.Prelude.{List, map as each, All};
    ghost use Rattle.std.specs.Coded.{coded_list};
    ghost use Rattle.chyp_env.specs.Coded.{binding_code};
    ghost use Rattle.chyp_env.specs.Environment.{Binding};

    ghost Value = { List Binding };

    ghost coded = { coded_list binding_code };

    ghost use Rattle.chyp_env.specs.Entry.{entry_of};
    ghost use Rattle.chyp_env.specs.Kept.{IsKept};
    ghost use Rattle.chyp_env.specs.Sound.{HasDistinctNames};

    ghost view = { λ e. each (λ pair. entry_of pair.1.value) e.map.entries };

    ghost invariant = { λ e. All (λ pair. IsKept pair.0 pair.1.value) e.map.entries
        × HasDistinctNames (each (λ pair. entry_of pair.1.value) e.map.entries) };
}

impl Entries {
    /// No entry. It takes no memory.
    pub(crate) fn new(alloc: Global) -> Entries
        ensures { result ≡ [] }
    {
        Entries {
            map: IndexMap::new(alloc),
        }
    }

    /// No entry, with room for so many.
    ///
    /// # Errors
    ///
    /// `NoMemory` where there is no such room.
    pub(crate) fn with_room(alloc: Global, count: usize) -> Result<Entries, NoMemory>
        ensures { IfOk result (λ entries. entries ≡ []) }
    {
        Ok(Entries {
            map: IndexMap::with_capacity(alloc, count)?,
        })
    }

    /// The allocator that it was made with.
    pub(crate) fn allocator(&self) -> Global {
        *self.map.allocator()
    }

    /// The entry of this name. It takes constant time on average, and no memory.
    pub(crate) fn get(&self, name: &[u8]) -> Option<&Entry>
        ensures some { IfSome result (λ entry. binding_of self.now name.now ≡ Some (entry_of entry.now)) }
        ensures none { IfNone result (binding_of self.now name.now ≡ None) }
    {
        // Where nothing is bound, no name needs to be hashed.
        if self.map.is_empty() {
            return None;
        }
        match self.map.get(Spelling { bytes: name }) {
            Some(entry) => Some(entry.as_ref()),
            None => None,
        }
    }

    /// How many entries there are.
    pub(crate) fn len(&self) -> usize
        ensures { result ≡ length self.now }
    {
        self.map.len()
    }

    /// The entry of this number, from 0. It takes constant time, and no memory.
    pub(crate) fn at(&self, number: usize) -> &Rc<Entry>
        requires { number < length self.now }
        ensures { slice_get self.now number ≡ Some (entry_of result.now.value) }
    {
        match self.map.get_index(number) {
            Some((_, entry)) => entry,
            None => unreachable!(),
        }
    }

    /// They are sound.
    pub(crate) fn sound(&self)
        ensures { IsSound self.now }
    {
        let _ = &self.map;
    }

    /// Adds an entry, whose name is new. It takes constant time on average.
    ///
    /// # Errors
    ///
    /// `NoMemory` where it can't be kept; nothing is added then.
    pub(crate) fn insert(&mut self, entry: Rc<Entry>) -> Result<(), NoMemory>
        requires fresh { is_bound self.old entry.value.name ≡ false }
        requires sound { IsSoundSense (sense_of entry.value.meaning) }
        ensures ok { OnOk result (self.new ≡ self.old ++ entry_of entry.value ∷ []) }
        ensures err { OnErr result (self.new ≡ self.old) }
    {
        let name = entry.name.share()?;
        // The name is new, so nothing is dropped; as a call, it takes one step of the proof.
        drop(self.map.insert(name, entry)?);
        Ok(())
    }

    /// Adds further entries, whose names are new, in their order. Where none is there yet, they become
    /// these, which takes constant time.
    ///
    /// # Errors
    ///
    /// `NoMemory` where they can't be kept; nothing is added then.
    pub(crate) fn append(&mut self, mut further: Entries) -> Result<(), NoMemory>
        requires fresh { All (λ binding. is_bound self.old binding.name ≡ false) further }
        ensures ok { OnOk result (self.new ≡ self.old ++ further) }
        ensures err { OnErr result (self.new ≡ self.old) }
    {
        if self.map.is_empty() {
            *self = further;
            return Ok(());
        }
        self.map.append(&mut further.map)?;
        Ok(())
    }
}
