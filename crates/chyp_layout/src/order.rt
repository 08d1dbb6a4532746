// The first order of the items in their columns.
ghost use Rattle.std.specs.Prelude.{◌≡◌, ◌<◌, ◌≤◌, ◌^◌, All, IfOk, [], length, map};
ghost use Rattle.std.specs.List.{range_with_len};
ghost use Rattle.std.proofs.Common.{replicate};
ghost use Rattle.chyp_layout.specs.Columns.{greatest};
ghost use Rattle.chyp_layout.specs.Ends.{IsEnd};
ghost use Rattle.chyp_layout.specs.Order.{AreExtended, boxes_in, first_order};
ghost use Rattle.chyp_layout.specs.declared.item.Item.TheVariants.{Wire};

use crate::column::Column;
use crate::columns::Columns;
use crate::ends::Ends;
use crate::item::Item;
use chyp_base::NoMemory;
use chyp_graph::{EdgeId, WireId};
use std::alloc::Global;

/// The first order: in each column the boxes in edge order, and then the bends in wire order.
pub(crate) fn first_order(
    alloc: Global,
    columns: &Columns,
    ends: &[Ends],
) -> Result<Vec<Column>, NoMemory>
    requires ends { All (λ x. IsEnd (length columns.now) x.from × IsEnd (length columns.now) x.to) ends.now }
    requires few { length ends.now < 2 ^ 31 }
    ensures { IfOk result (λ order. order.items ≡ first_order columns.now ends.now) }
{
    let mut order = order_of_boxes(alloc, columns)?;
    for (w, x) in ends.iter().enumerate() {
        let first = columns.of_end(x.from);
        let last = columns.of_end(x.to).saturating_sub(1);
        push_bends(&mut order, WireId(w as u32), first, last)?;
    }
    Ok(order)
}

/// The columns with their boxes.
fn order_of_boxes(alloc: Global, columns: &Columns) -> Result<Vec<Column>, NoMemory>
    ensures { IfOk result (λ order. order.items ≡ map (boxes_in columns.now) (range_with_len 1 (greatest columns.now))) }
{
    let mut order = empty_columns(alloc, columns.last())?;
    for (k, column) in columns.as_slice().iter().enumerate() {
        let column = &mut order[*column as usize - 1];
        column.push(Item::Box(EdgeId(k as u32)))?;
    }
    Ok(order)
}

/// So many columns with no item.
fn empty_columns(alloc: Global, count: u32) -> Result<Vec<Column>, NoMemory>
    ensures { IfOk result (λ order. order.items ≡ replicate count []) }
{
    let mut order = Vec::with_capacity(alloc, count as usize)?;
    while order.len() < count as usize {
        order.push(Column::new(alloc))?;
    }
    Ok(order)
}

/// Adds a wire to the columns at the places from the one up to the other.
fn push_bends(order: &mut Vec<Column>, wire: WireId, from: u32, to: u32) -> Result<(), NoMemory>
    requires { to ≤ length order.old.items }
    ensures { IfOk result (λ _. AreExtended (λ _. Wire wire) from to order.old.items order.new.items) }
{
    for place in from..to {
        let column = &mut order[place as usize];
        column.push(Item::Wire(wire))?;
    }
    Ok(())
}
