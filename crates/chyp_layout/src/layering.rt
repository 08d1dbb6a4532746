// The picture of a graph.
ghost use Rattle.std.specs.Prelude.{◌≡◌, ◌<◌, ◌≤◌, ◌^◌, All, IfErr, IfOk, length};
ghost use Rattle.chyp_picture.specs.Crossings.{crossings_of};
ghost use Rattle.chyp_picture.specs.Limits.{most_points};
ghost use Rattle.chyp_layout.specs.Ends.{ends_of};
ghost use Rattle.chyp_layout.specs.Layout.{IsCause};
ghost use Rattle.chyp_layout.specs.PictureOf.{best_after, four_sweeps, picture_in, picture_of, points_of};
ghost use Rattle.chyp_layout.specs.Side.{AreItems};

use crate::LayoutError;
use crate::bounds::is_bounded;
use crate::column::Column;
use crate::columns::Columns;
use crate::crossings::crossings;
use crate::drawn::Drawn;
use crate::ends::{Ends, all_ends};
use crate::order::first_order;
use crate::picture::picture_in;
use crate::side::Side;
use crate::sweep::sweep;
use chyp_base::NoMemory;
use chyp_graph::Graph;
use chyp_picture::{MOST_POINTS, Picture};
use std::alloc::Global;

/// The sides on which the sweeps have the neighbours, in order.
const SWEEPS: [Side; 4] = [Side::Left, Side::Right, Side::Left, Side::Right];

/// The picture of a graph, in layers. It takes time and memory in proportion to boxes, bends and ports,
/// but for the sorting of the columns and the counting of crossings, which take n log n.
///
/// # Errors
///
/// `TooBig` exactly where the picture has more than [`MOST_POINTS`] boxes and bends, with their number; no
/// picture is begun then. `NoMemory` where the picture can't be kept.
pub fn layout(alloc: Global, graph: &Graph) -> Result<Picture, LayoutError>
    ensures picture { IfOk result (λ picture. picture ≡ picture_of graph.now) }
    ensures fits { IfOk result (λ _. points_of graph.now ≤ most_points) }
    ensures cause { IfErr result (IsCause (points_of graph.now)) }
{
    is_bounded(graph);
    let columns = Columns::of(graph)?;
    let ends = all_ends(alloc, graph)?;
    let points = columns.point_count(&ends);
    if points > MOST_POINTS {
        return Err(LayoutError::TooBig { points });
    }
    let order = first_order(alloc, &columns, &ends)?;
    Ok(best(alloc, graph, &ends, order)?)
}

/// The picture of an order or of one of those after the sweeps: the first with the fewest crossings.
fn best(
    alloc: Global,
    graph: &Graph,
    ends: &[Ends],
    order: Vec<Column>,
) -> Result<Picture, NoMemory>
    requires ends { ends.now ≡ ends_of graph.now }
    requires order { All (AreItems graph.now) order.items }
    requires few { length order.items < 2 ^ 31 }
    ensures { IfOk result (λ picture. picture ≡ best_after graph.now four_sweeps order.items) }
{
    let mut order = order;
    let mut best = drawn(alloc, graph, ends, &order)?;
    for side in &SWEEPS {
        order = sweep(alloc, graph, *side, order)?;
        let next = drawn(alloc, graph, ends, &order)?;
        best = best.or_better(next);
    }
    Ok(best.picture)
}

/// The picture of an order, with its crossings.
fn drawn(alloc: Global, graph: &Graph, ends: &[Ends], order: &[Column]) -> Result<Drawn, NoMemory>
    requires ends { ends.now ≡ ends_of graph.now }
    requires order { All (AreItems graph.now) order.now }
    requires few { length order.now < 2 ^ 31 }
    ensures picture { IfOk result (λ drawn. drawn.picture ≡ picture_in graph.now order.now) }
    ensures crossings { IfOk result (λ drawn. drawn.crossings ≡ crossings_of drawn.picture) }
{
    is_bounded(graph);
    let picture = picture_in(alloc, graph, ends, order)?;
    let crossings = crossings(alloc, &picture)?;
    Ok(Drawn { picture, crossings })
}
