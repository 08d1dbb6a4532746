// Columns of items.
ghost use Rattle.std.specs.Prelude.{◌≡◌, [], ◌∷◌, ◌++◌, IfOk};

use crate::item::Item;
use chyp_base::NoMemory;
use std::alloc::Global;
use std::marker::Model;

/// The items of a column, from the top down.
#[derive(Debug, Drop)]
pub(crate) struct Column {
    items: Vec<Item>,
}

impl Model for Column {
    ghost use Rattle.std.specs.Prelude.{List};
    ghost use Rattle.chyp_layout.specs.declared.item.Item.{Item};

    ghost Value = { List Item };

    ghost view = { λ column. column.items.items };
}

impl Column {
    /// A column with no item. It takes no memory.
    pub(crate) fn new(alloc: Global) -> Column
        ensures { result ≡ [] }
    {
        Column {
            items: Vec::new(alloc),
        }
    }

    /// The column of these items. It takes no memory.
    pub(crate) fn from_vec(items: Vec<Item>) -> Column
        ensures { result ≡ items.items }
    {
        Column { items }
    }

    /// The items.
    pub(crate) fn as_slice(&self) -> &[Item]
        ensures { result.now ≡ self.now }
    {
        &self.items
    }

    /// Adds an item at the bottom.
    pub(crate) fn push(&mut self, item: Item) -> Result<(), NoMemory>
        ensures { IfOk result (λ _. self.new ≡ self.old ++ item ∷ []) }
    {
        Ok(self.items.push(item)?)
    }
}
