// Lists of sorts: the objects.
ghost use Rattle.std.specs.Prelude.{◌≡◌, ◌↔◌, ◌++◌, IfOk, OnOk, IsTrue};
ghost use Rattle.std.specs.Cmp.{partial_equiv_from_equiv};
ghost use Rattle.std.specs.Cmp.Lexicographic.{pointwise, lists_equiv};
ghost use Rattle.chyp_base.specs.Sort.{same_sort, same_sort_equiv};
ghost use Rattle.chyp_base.specs.Sorts.{sorts_in};

use crate::{NoMemory, Sort};
use std::fmt;
use std::fmt::{Debug, Formatter, Write};
use std::marker::Model;
use std::rc::Rc;

/// A list of sorts, seen by contracts as that list: an object of the category, whose tensor product
/// is concatenation.
///
/// A list that was just made has one owner, and to [`share`](Sorts::share) it copies it once, into a
/// list that can have several. That one and each list shared from it have the same items, and to
/// share any of them again takes no memory. `into_shared` makes such a list without a copy.
#[derive(Drop)]
pub struct Sorts {
    items: Items,
}

/// A list that has one owner, or several.
#[derive(Drop)]
enum Items {
    Owned(Vec<Sort>),
    Shared(Rc<Vec<Sort>>),
}

impl Model for Sorts {
    ghost use Rattle.std.specs.Prelude.{List};
    ghost use Rattle.chyp_base.specs.declared.sort.Sort.{Sort};
    ghost use Rattle.chyp_base.specs.Sorts.{sorts_in};

    ghost Value = { List Sort };

    ghost view = { λ s. sorts_in s.items };
}

impl Sorts {
    /// The list with these sorts. It takes no memory.
    pub fn from_vec(items: Vec<Sort>) -> Sorts
        ensures { result ≡ items.items }
    {
        Sorts {
            items: Items::Owned(items),
        }
    }

    /// The sorts, in order.
    pub fn as_slice(&self) -> &[Sort]
        ensures { result.now ≡ self.now }
    {
        match &self.items {
            Items::Owned(list) => list,
            Items::Shared(list) => list,
        }
    }

    /// Gives the sorts back, without a copy where this is their sole owner.
    ///
    /// # Errors
    ///
    /// `NoMemory` where there are other owners, and a copy for them can't be kept.
    pub fn into_vec(self) -> Result<Vec<Sort>, NoMemory>
        ensures { IfOk result (λ list. list.items ≡ self) }
    {
        match self.items {
            Items::Owned(list) => Ok(list),
            Items::Shared(list) => match Rc::try_unwrap(list) {
                Ok(list) => Ok(list),
                Err(list) => joined(&list, &[]),
            },
        }
    }

    /// An equal list. It copies the list where it isn't shared yet, and takes no memory where it is.
    ///
    /// # Errors
    ///
    /// `NoMemory` where the list can't be kept, or can't be shared once more.
    pub fn share(&self) -> Result<Sorts, NoMemory>
        ensures { IfOk result (λ sorts. sorts ≡ self.now) }
    {
        let items = match &self.items {
            Items::Owned(list) => shared(list.clone()?)?,
            Items::Shared(list) => Items::Shared(list.clone()?),
        };
        Ok(Sorts { items })
    }

    /// The same list, ready to be shared without memory.
    ///
    /// # Errors
    ///
    /// `NoMemory` where there is no memory for the count of its owners.
    pub fn into_shared(self) -> Result<Sorts, NoMemory>
        ensures { IfOk result (λ sorts. sorts ≡ self) }
    {
        let items = match self.items {
            Items::Owned(list) => shared(list)?,
            Items::Shared(list) => Items::Shared(list),
        };
        Ok(Sorts { items })
    }

    /// This list and then the other one: the tensor product of two objects.
    ///
    /// # Errors
    ///
    /// `NoMemory` where the list can't be kept, or a name can't be shared once more.
    pub fn beside(self, other: &Sorts) -> Result<Sorts, NoMemory>
        ensures { IfOk result (λ both. both ≡ self ++ other.now) }
    {
        match self.items {
            Items::Owned(mut list) => {
                extend(&mut list, other.as_slice())?;
                Ok(Sorts::from_vec(list))
            }
            Items::Shared(list) => Ok(Sorts::from_vec(joined(&list, other.as_slice())?)),
        }
    }
}

/// The sorts of a list and then the others.
fn joined(list: &Vec<Sort>, others: &[Sort]) -> Result<Vec<Sort>, NoMemory>
    ensures { IfOk result (λ both. both.items ≡ list.now.items ++ others.now) }
{
    let mut both = Vec::with_capacity(*list.allocator(), list.len() + others.len())?;
    extend(&mut both, list)?;
    extend(&mut both, others)?;
    Ok(both)
}

/// Appends sorts to a list.
fn extend(list: &mut Vec<Sort>, sorts: &[Sort]) -> Result<(), NoMemory>
    ensures { OnOk result (list.new.items ≡ list.old.items ++ sorts.now) }
{
    for sort in sorts {
        list.push(sort.share()?)?;
    }
    Ok(())
}

/// A list that can have several owners. An empty list needs none of it.
fn shared(list: Vec<Sort>) -> Result<Items, NoMemory>
    ensures { IfOk result (λ items. sorts_in items ≡ list.items) }
{
    if list.is_empty() {
        return Ok(Items::Owned(list));
    }
    Ok(Items::Shared(Rc::new(*list.allocator(), list)?))
}

/// Written as the list, however it is owned.
impl Debug for Sorts {
    fn fmt<W: Write>(&self, f: &mut Formatter<W>) -> fmt::Result {
        f.debug_list().slice(self.as_slice()).finish()
    }
}

/// Lists of sorts are equal where they are as long and hold equal sorts in order.
impl PartialEq for Sorts {
    ghost eq = { pointwise same_sort };

    ghost laws = { partial_equiv_from_equiv (lists_equiv same_sort_equiv) };

    fn eq(&self, other: &Sorts) -> bool
        ensures test { result ≡ pointwise same_sort self.now other.now }
        ensures same { IsTrue result ↔ (self.now ≡ other.now) }
    {
        self.as_slice() == other.as_slice()
    }
}

impl Eq for Sorts {
    ghost laws = { lists_equiv same_sort_equiv };
}
