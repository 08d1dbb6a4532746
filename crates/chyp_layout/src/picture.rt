// Pictures of an order of the columns.
ghost use Rattle.std.specs.Prelude.{◌≡◌, ◌+◌, ◌*◌, ◌/◌, ◌<◌, ◌≤◌, ◌^◌, All, IfOk, List, length};
ghost use Rattle.chyp_layout.specs.Ends.{ends_of};
ghost use Rattle.chyp_layout.specs.PictureOf.{AreBoxes, AreLines, IsPortOn, all_spots, boxes_of, column_height, end_y, picture_height, picture_in};
ghost use Rattle.chyp_layout.specs.Side.{AreItems, IsItem};
ghost use Rattle.chyp_layout.specs.declared.placed.Placed.{Placed};

use crate::bounds::is_bounded;
use crate::column::Column;
use crate::ends::Ends;
use crate::item::Item;
use crate::side::{Side, wires_on};
use crate::spot::Spot;
use crate::spots::{box_spots, height, placed, trails};
use crate::trail::Trail;
use chyp_base::NoMemory;
use chyp_graph::{EdgeId, Graph, WireId};
use chyp_picture::{BoxAt, Boxes, End, Line, Lines, Picture};
use std::alloc::Global;

/// The picture of a graph in an order of the columns, where the wires have these ends.
pub(crate) fn picture_in(
    alloc: Global,
    graph: &Graph,
    ends: &[Ends],
    order: &[Column],
) -> Result<Picture, NoMemory>
    requires ends { ends.now ≡ ends_of graph.now }
    requires order { All (AreItems graph.now) order.now }
    requires few { length order.now < 2 ^ 31 }
    ensures { IfOk result (λ picture. picture ≡ picture_in graph.now order.now) }
{
    is_bounded(graph);
    let placed = placed(alloc, graph, order)?;
    let spots = box_spots(alloc, graph.edge_count(), &placed)?;
    let bends = trails(alloc, graph.wire_count(), &placed)?;
    let boxes = boxes(alloc, graph, &spots)?;
    let lines = lines(alloc, graph, ends, &bends, &spots)?;
    let columns = order.len() as u32;
    Ok(Picture {
        width: 40 + 100 * (u64::from(columns) + 1) + 40,
        height: picture_height(graph, order),
        columns,
        boxes: Boxes::from_vec(boxes),
        lines: Lines::from_vec(lines),
        inputs: graph.inputs().len() as u32,
        outputs: graph.outputs().len() as u32,
    })
}

/// The boxes, in edge order, at these spots.
fn boxes(alloc: Global, graph: &Graph, spots: &[Spot]) -> Result<Vec<BoxAt>, NoMemory>
    requires { length spots.now ≡ length graph.now.edges }
    ensures { IfOk result (λ boxes. AreBoxes graph.now spots.now boxes.items) }
{
    let mut boxes = Vec::with_capacity(alloc, spots.len())?;
    for k in 0..graph.edge_count() {
        let spot = spots[k as usize];
        boxes.push(BoxAt {
            name: graph.edge(EdgeId(k)).name.share()?,
            column: spot.column,
            place: spot.place,
            top: spot.top,
            height: height(graph, &Item::Box(EdgeId(k))),
        })?;
    }
    Ok(boxes)
}

/// The lines, in wire order, with these ends and bends.
fn lines(
    alloc: Global,
    graph: &Graph,
    ends: &[Ends],
    bends: &[Trail],
    spots: &[Spot],
) -> Result<Vec<Line>, NoMemory>
    requires ends { ends.now ≡ ends_of graph.now }
    requires bends { length bends.now ≡ length graph.now.wires }
    requires spots { length spots.now ≡ length graph.now.edges }
    requires low { All (λ s. s.top < 2 ^ 63) spots.now }
    ensures { IfOk result (λ lines. AreLines graph.now spots.now bends.now lines.items) }
{
    is_bounded(graph);
    let mut lines = Vec::with_capacity(alloc, ends.len())?;
    for w in 0..graph.wire_count() {
        let x = ends[w as usize];
        lines.push(Line {
            sort: graph.wire_sort(WireId(w)).share()?,
            from: x.from,
            to: x.to,
            bends: bends[w as usize].bends(alloc)?,
            y_from: end_y(graph, spots, Side::Right, x.from),
            y_to: end_y(graph, spots, Side::Left, x.to),
        })?;
    }
    Ok(lines)
}

/// How far down an end of a wire is, which stands on this side of its box, if at a box.
fn end_y(graph: &Graph, spots: &[Spot], side: Side, end: End) -> u64
    requires size { length spots.now ≡ length graph.now.edges }
    requires low { All (λ s. s.top < 2 ^ 63) spots.now }
    requires port { IsPortOn graph.now side end }
    ensures { (placed : List Placed) → spots.now ≡ all_spots graph.now placed → result ≡ end_y graph.now placed side end }
{
    is_bounded(graph);
    match end {
        End::Input(i) | End::Output(i) => 30 + 40 * u64::from(i),
        End::Port { box_index, port } => {
            let item = Item::Box(EdgeId(box_index));
            let ports = wires_on(graph, side, &item).len();
            let down = down(height(graph, &item), port, ports as u64);
            spots[box_index as usize].top + down
        }
    }
}

/// How far down a port is, of so many on the side of a box of this height.
fn down(height: u64, port: u32, ports: u64) -> u64
    requires port { port < ports }
    requires few { ports < 2 ^ 31 }
    requires low { height ≤ 20 * 2 ^ 31 }
    ensures down { result ≡ height * (2 * port + 1) / (2 * ports) }
    ensures within { result ≤ height }
{
    let down = u128::from(height) * (2 * u128::from(port) + 1) / (2 * u128::from(ports));
    down as u64
}

/// The height of the picture.
fn picture_height(graph: &Graph, order: &[Column]) -> u64
    requires { All (AreItems graph.now) order.now }
    ensures { result ≡ picture_height graph.now order.now }
{
    is_bounded(graph);
    let rim = graph.inputs().len().max(graph.outputs().len());
    let mut height = 40 * rim as u64;
    for column in order {
        height = height.max(column_height(graph, column.as_slice()));
    }
    20 + height
}

/// The heights of the items of a column, with a gap of 20 below each.
fn column_height(graph: &Graph, items: &[Item]) -> u64
    requires { AreItems graph.now items.now }
    ensures height { result ≡ column_height graph.now items.now }
    ensures few { result < 2 ^ 63 }
{
    let mut sum = 0;
    for item in items {
        sum += height(graph, item) + 20;
    }
    sum
}
