// Items in the order in which they came, each under a number of its own.
ghost use Rattle.std.specs.Prelude.{◌≡◌, ◌+◌, ◌<◌, ◌≤◌, [], ◌∷◌, ◌++◌, All, IfOk, OnOk, None, option_copied};
ghost use Rattle.std.specs.List.{cons_option, filter_map};
ghost use Rattle.std.specs.Option.{option_copied_mut};
ghost use Rattle.std.specs.Borrow.{sem};
ghost use Rattle.chyp_store.specs.Items.{AreDistinct, ids, item_at, without};

use chyp_base::NoMemory;
use slab::Slab;
use std::alloc::Global;
use std::marker::Model;

/// An item with its place in the order.
#[derive(Drop)]
struct Slot<T> {
    place: usize,
    item: T,
}

/// Items in the order in which they came, each under a number that no other one has while it is there.
/// To add, to find, to change and to take one out takes constant time, however many there are.
#[derive(Drop)]
pub struct Store<T> {
    slots: Slab<Slot<T>>,
    order: Vec<Option<u32>>,
    room: u32,
    bound: u32,
}

impl<T> Model for Store<T> {
    ghost use Rattle.std.specs.Prelude.{vec_capacity, length};
    ghost use Rattle.chyp_store.specs.Store.{Store as Stored, store_code, listed, IsKept, HasRoom};

    ghost Value = { Stored T };

    ghost coded = { store_code T.code };

    ghost view = { λ s. record { items = listed s.slots s.order.items; room = s.room; bound = s.bound } };

    ghost invariant = { λ s. IsKept s.slots s.order.items s.bound × HasRoom s.slots (vec_capacity s.order) (length s.order.items) s.room };
}

impl<T: Drop> Store<T> {
    ghost use Rattle.chyp_store.specs.StoreLends.{lends_item};

    /// No item. It takes no memory.
    pub fn new(alloc: Global) -> Store<T>
        ensures { result ≡ record { items = []; room = 0; bound = 0 } }
    {
        Store {
            slots: Slab::new(alloc),
            order: Vec::new(alloc),
            room: 0,
            bound: 0,
        }
    }

    /// Takes the memory for so many more items.
    pub fn reserve(&mut self, more: u32) -> Result<(), NoMemory>
        ensures kept { self.new.items ≡ self.old.items }
        ensures bound { self.new.bound ≡ self.old.bound }
        ensures room { OnOk result (more ≤ self.new.room) }
    {
        self.room = 0;
        self.slots.reserve(more as usize)?;
        self.order.reserve(more as usize)?;
        if self.slots.capacity() > 1 << 31 {
            return Err(NoMemory);
        }
        self.room = more;
        Ok(())
    }

    /// Adds an item behind the others, and answers its number. It takes no memory.
    pub fn add(&mut self, item: T) -> u32
        requires { 0 < self.old.room }
        ensures items { self.new.items ≡ self.old.items ++ (result, item) ∷ [] }
        ensures fresh { item_at result self.old.items ≡ None }
        ensures room { self.new.room + 1 ≡ self.old.room }
        ensures below { result < self.new.bound }
        ensures bound { self.old.bound ≤ self.new.bound }
    {
        let place = self.order.len();
        let key = self.slots.insert_reserved(Slot { place, item }) as u32;
        self.order.push_reserved(Some(key));
        self.room -= 1;
        self.bound = self.bound.max(key + 1);
        key
    }

    /// The item under this number.
    pub fn get(&self, k: u32) -> Option<&T>
        ensures { option_copied result ≡ item_at k self.now.items }
    {
        match self.slots.get(k as usize) {
            Some(slot) => Some(&slot.item),
            None => None,
        }
    }

    /// The item under this number, for writing.
    pub fn get_mut(&mut self, k: u32) -> Option<&mut T>
        ensures* writes_back { sem 𝓛 (lends_item T.row self.entry k result) }
        ensures value { option_copied_mut result ≡ item_at k self.old.items }
    {
        match self.slots.get_mut(k as usize) {
            Some(slot) => Some(&mut slot.item),
            None => None,
        }
    }

    /// Takes out the item under this number.
    pub fn remove(&mut self, k: u32) -> Option<T>
        ensures item { result ≡ item_at k self.old.items }
        ensures items { self.new.items ≡ without k self.old.items }
        ensures room { self.new.room ≡ self.old.room }
        ensures bound { self.new.bound ≡ self.old.bound }
    {
        match self.slots.try_remove(k as usize) {
            Some(slot) => {
                self.order[slot.place] = None;
                Some(slot.item)
            }
            None => None,
        }
    }

    /// The numbers of the items, in order.
    ///
    /// # Errors
    ///
    /// `NoMemory` where the list can't be kept.
    pub fn numbers(&self) -> Result<Vec<u32>, NoMemory>
        ensures { IfOk result (λ numbers. numbers.items ≡ ids self.now.items) }
    {
        numbers_in(*self.order.allocator(), &self.order)
    }

    /// No two items have one number: a call brings a proof this fact, and does nothing when it runs.
    pub fn apart(&self)
        ensures { AreDistinct (ids self.now.items) }
    {
        let _ = &self.order;
    }

    /// A number that is above those of all items.
    pub fn bound(&self) -> u32
        ensures bound { result ≡ self.now.bound }
        ensures above { All (λ e. e.0 < result) self.now.items }
    {
        self.bound
    }
}

/// The numbers that stand in the order, without its holes.
fn numbers_in(alloc: Global, order: &[Option<u32>]) -> Result<Vec<u32>, NoMemory>
    ensures { IfOk result (λ numbers. numbers.items ≡ filter_map (λ k. k) order.now) }
{
    let mut numbers = Vec::new(alloc);
    for entry in order {
        push_some(&mut numbers, *entry)?;
    }
    Ok(numbers)
}

/// Puts the number, where there is one, behind the others.
fn push_some(numbers: &mut Vec<u32>, entry: Option<u32>) -> Result<(), NoMemory>
    ensures { OnOk result (numbers.new.items ≡ numbers.old.items ++ cons_option entry []) }
{
    match entry {
        Some(k) => Ok(numbers.push(k)?),
        None => Ok(()),
    }
}
