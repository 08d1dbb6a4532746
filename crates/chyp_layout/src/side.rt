// Sides of columns.
ghost use Rattle.std.specs.Prelude.{◌≡◌, ◌<◌, length};
ghost use Rattle.chyp_layout.specs.Side.{IsItem, opposite, wires_on};

use crate::item::Item;
use chyp_graph::{Graph, WireId};
use std::slice;

/// A side of a column.
#[derive(Clone, Copy, Debug, PartialEq, Eq)]
pub enum Side {
    /// The side of the inputs.
    Left,
    /// The side of the outputs.
    Right,
}

impl Side {
    /// The other side.
    pub(crate) fn opposite(self) -> Side
        ensures { result ≡ opposite self }
    {
        match self {
            Side::Left => Side::Right,
            Side::Right => Side::Left,
        }
    }
}

/// The wires of an item on a side, from the top down.
pub(crate) fn wires_on<'a>(graph: &'a Graph, side: Side, item: &'a Item) -> &'a [WireId]
    requires { IsItem graph.now item.now }
    ensures { result.now ≡ wires_on graph.entry.now side item.entry.now }
{
    match item {
        Item::Wire(w) => slice::from_ref(w),
        Item::Box(k) => {
            let edge = graph.edge(*k);
            match side {
                Side::Left => edge.sources,
                Side::Right => edge.targets,
            }
        }
    }
}
