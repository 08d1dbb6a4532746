// The spots of boxes and bends.
ghost use Rattle.std.specs.Prelude.{◌≡◌, ◌+◌, ◌*◌, ◌<◌, ◌≤◌, ◌^◌, ◌++◌, [], All, IfOk, length, map};
ghost use Rattle.std.specs.List.{range_with_len};
ghost use Rattle.std.proofs.Common.{replicate};
ghost use Rattle.chyp_layout.specs.Side.{AreItems, IsItem};
ghost use Rattle.chyp_layout.specs.Spots.{IsBoxBelow, IsWireBelow, bends_on, box_spot, height_of, placed_from, placed_in};

use crate::bounds::is_bounded;
use crate::column::Column;
use crate::item::Item;
use crate::placed::Placed;
use crate::spot::Spot;
use crate::trail::Trail;
use chyp_base::NoMemory;
use chyp_graph::Graph;
use chyp_picture::Point;
use std::alloc::Global;

/// The items of the columns, of which the first is column 1, with their spots.
pub(crate) fn placed(
    alloc: Global,
    graph: &Graph,
    order: &[Column],
) -> Result<Vec<Placed>, NoMemory>
    requires order { All (AreItems graph.now) order.now }
    requires few { length order.now < 2 ^ 31 }
    ensures { IfOk result (λ placed. placed.items ≡ placed_from graph.now 1 order.now) }
{
    let mut placed = Vec::new(alloc);
    for (c, column) in order.iter().enumerate() {
        place(&mut placed, graph, c as u32 + 1, column.as_slice())?;
    }
    Ok(placed)
}

/// Adds the items of a column with their spots.
fn place(
    placed: &mut Vec<Placed>,
    graph: &Graph,
    column: u32,
    items: &[Item],
) -> Result<(), NoMemory>
    requires { AreItems graph.now items.now }
    ensures { IfOk result (λ _. placed.new.items ≡ placed.old.items ++ placed_in graph.now column 0 20 items.now) }
{
    let mut top = 20;
    for (place, item) in items.iter().enumerate() {
        let spot = Spot {
            column,
            place: place as u32,
            top,
        };
        placed.push(Placed { item: *item, spot })?;
        top += height(graph, item) + 20;
    }
    Ok(())
}

/// The height of an item.
pub(crate) fn height(graph: &Graph, item: &Item) -> u64
    requires { IsItem graph.now item.now }
    ensures height { result ≡ height_of graph.now item.now }
    ensures few { result ≤ 20 * 2 ^ 31 }
{
    is_bounded(graph);
    match item {
        Item::Wire(_) => 20,
        Item::Box(k) => {
            let edge = graph.edge(*k);
            20 * edge.sources.len().max(edge.targets.len()).max(1) as u64
        }
    }
}

/// The spots of so many boxes.
pub(crate) fn box_spots(alloc: Global, count: u32, placed: &[Placed]) -> Result<Vec<Spot>, NoMemory>
    requires { All (λ p. IsBoxBelow count p.item) placed.now }
    ensures { IfOk result (λ spots. spots.items ≡ map (box_spot placed.now) (range_with_len 0 count)) }
{
    let nowhere = Spot {
        column: 0,
        place: 0,
        top: 0,
    };
    let mut spots = vec![in alloc; nowhere; count as usize]?;
    for p in placed {
        match p.item {
            Item::Box(k) => spots[k.0 as usize] = p.spot,
            Item::Wire(_) => {}
        }
    }
    Ok(spots)
}

/// The bends of so many wires.
pub(crate) fn trails(alloc: Global, count: u32, placed: &[Placed]) -> Result<Vec<Trail>, NoMemory>
    requires { All (λ p. IsWireBelow count p.item × (p.spot.top < 2 ^ 63)) placed.now }
    ensures { IfOk result (λ trails. trails.items ≡ map (bends_on placed.now) (range_with_len 0 count)) }
{
    let mut trails = no_trails(alloc, count)?;
    for p in placed {
        match p.item {
            Item::Box(_) => {}
            Item::Wire(w) => {
                let trail = &mut trails[w.0 as usize];
                trail.push(Point {
                    column: p.spot.column,
                    place: p.spot.place,
                    y: p.spot.top + 10,
                })?;
            }
        }
    }
    Ok(trails)
}

/// No bend of so many wires.
fn no_trails(alloc: Global, count: u32) -> Result<Vec<Trail>, NoMemory>
    ensures { IfOk result (λ trails. trails.items ≡ replicate count []) }
{
    let mut trails = Vec::with_capacity(alloc, count as usize)?;
    while trails.len() < count as usize {
        trails.push(Trail::new(alloc))?;
    }
    Ok(trails)
}
