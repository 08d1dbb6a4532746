// Sweeps over the columns, each of which is sorted by the means of its neighbours' positions.
ghost use Rattle.std.specs.Prelude.{◌≡◌, ◌<◌, ◌^◌, All, IfOk, ℕ, length, map, slice_index};
ghost use Rattle.chyp_graph.specs.Removal.{IsWritten};
ghost use Rattle.chyp_layout.specs.declared.item.Item.TheVariants.{Wire};
ghost use Rattle.chyp_layout.specs.declared.side.Side.TheVariants.{Right};
ghost use Rattle.chyp_layout.specs.Side.{AreItems, IsItem};
ghost use Rattle.chyp_layout.specs.Sweep.{last_of, place_on, sweep_of, swept};

use crate::bounds::is_bounded;
use crate::column::Column;
use crate::item::Item;
use crate::means::{ranked, sorted};
use crate::side::{Side, wires_on};
use chyp_base::NoMemory;
use chyp_graph::{Graph, WireId};
use std::alloc::Global;

/// The order that a sweep leaves. A sweep to the right has the neighbours on the left of each column,
/// and one to the left those on the right.
pub(crate) fn sweep(
    alloc: Global,
    graph: &Graph,
    side: Side,
    order: Vec<Column>,
) -> Result<Vec<Column>, NoMemory>
    requires { All (AreItems graph.now) order.items }
    ensures { IfOk result (λ now. now.items ≡ sweep_of graph.now side order.items) }
{
    match side {
        Side::Left => {
            is_bounded(graph);
            let rim = wire_items(alloc, graph.inputs())?;
            swept(alloc, graph, side, &rim, &order)
        }
        Side::Right => swept_back(alloc, graph, order),
    }
}

/// The order that a sweep to the left leaves.
fn swept_back(alloc: Global, graph: &Graph, mut order: Vec<Column>) -> Result<Vec<Column>, NoMemory>
    requires { All (AreItems graph.now) order.items }
    ensures { IfOk result (λ now. now.items ≡ sweep_of graph.now Right order.items) }
{
    is_bounded(graph);
    let rim = wire_items(alloc, graph.outputs())?;
    order.reverse();
    let mut order = swept(alloc, graph, Side::Right, &rim, &order)?;
    order.reverse();
    Ok(order)
}

/// Wires as items.
fn wire_items(alloc: Global, wires: &[WireId]) -> Result<Column, NoMemory>
    ensures { IfOk result (λ column. column ≡ map Wire wires.now) }
{
    let mut column = Column::new(alloc);
    for w in wires {
        column.push(Item::Wire(*w))?;
    }
    Ok(column)
}

/// The columns one after another, each sorted by the places in the one before it, and the first by
/// those in the rim.
fn swept(
    alloc: Global,
    graph: &Graph,
    side: Side,
    rim: &Column,
    order: &[Column],
) -> Result<Vec<Column>, NoMemory>
    requires rim { All (IsItem graph.now) rim.now }
    requires few { length rim.now < 2 ^ 32 }
    requires order { All (AreItems graph.now) order.now }
    ensures { IfOk result (λ now. now.items ≡ swept graph.now side rim.now order.now) }
{
    is_bounded(graph);
    let mut places = vec![in alloc; 0; graph.wire_count() as usize]?;
    let mut now = Vec::with_capacity(alloc, order.len())?;
    for column in order {
        let beside = last_or(&now, rim);
        note(&mut places, graph, side.opposite(), beside.as_slice());
        let ranked = ranked(alloc, graph, side, &places, column.as_slice())?;
        clear(&mut places, graph, side.opposite(), beside.as_slice());
        now.push(sorted(ranked)?)?;
    }
    Ok(now)
}

/// The last of the columns, or the rim where there is none.
fn last_or<'a>(columns: &'a [Column], rim: &'a Column) -> &'a Column
    ensures { result.now ≡ last_of rim.entry.now columns.entry.now }
{
    match columns.last() {
        Some(column) => column,
        None => rim,
    }
}

/// Notes at each wire on this side of the items the place of its item.
fn note(places: &mut [u32], graph: &Graph, side: Side, items: &[Item])
    requires size { length places.old ≡ length graph.now.wires }
    requires clear { (w : ℕ) → w < length graph.now.wires → slice_index places.old w ≡ 0 }
    requires items { All (IsItem graph.now) items.now }
    requires few { length items.now < 2 ^ 32 }
    ensures size { length places.new ≡ length graph.now.wires }
    ensures noted { (w : ℕ) → w < length graph.now.wires → slice_index places.new w ≡ place_on graph.now side items.now w }
{
    is_bounded(graph);
    for (place, item) in items.iter().enumerate() {
        write_at(places, wires_on(graph, side, item), place as u32);
    }
}

/// Writes 0 at each wire on this side of the items.
fn clear(places: &mut [u32], graph: &Graph, side: Side, items: &[Item])
    requires size { length places.old ≡ length graph.now.wires }
    requires items { All (IsItem graph.now) items.now }
    requires noted { (w : ℕ) → w < length graph.now.wires → slice_index places.old w ≡ place_on graph.now side items.now w }
    ensures size { length places.new ≡ length graph.now.wires }
    ensures clear { (w : ℕ) → w < length graph.now.wires → slice_index places.new w ≡ 0 }
{
    is_bounded(graph);
    for item in items {
        write_at(places, wires_on(graph, side, item), 0);
    }
}

/// Writes a place at wires.
fn write_at(places: &mut [u32], wires: &[WireId], place: u32)
    requires { All (λ w. w < length places.old) wires.now }
    ensures { IsWritten wires.now place places.old places.new }
{
    for w in wires {
        places[w.0 as usize] = place;
    }
}
