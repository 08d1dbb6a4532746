// Occurrences by numbers.
ghost use Rattle.std.specs.Prelude.{◌≡◌, ◌<◌, All, IfOk, length, map, slice_index};
ghost use Rattle.chyp_store.specs.Items.{ids};

use crate::board::Board;
use chyp_base::NoMemory;
use chyp_graph::{EdgeId, EdgeIds, WireId, WireIds};
use chyp_pattern::Occurrence;

/// The occurrence by the numbers of its edges and wires, of one that names them by their places.
pub(crate) fn numbered_in(board: &Board, at: &Occurrence) -> Result<Occurrence, NoMemory>
    requires edges { All (λ k. k < length board.now.edges.items) at.now.edges }
    requires wires { All (λ w. w < length board.now.wires.items) at.now.wires }
    ensures edges { IfOk result (λ o. o.edges ≡ map (slice_index (ids board.now.edges.items)) at.now.edges) }
    ensures wires { IfOk result (λ o. o.wires ≡ map (slice_index (ids board.now.wires.items)) at.now.wires) }
{
    let edges = edges_at(board, at.edges.as_slice())?;
    let wires = wires_at(board, at.wires.as_slice())?;
    Ok(Occurrence {
        edges: EdgeIds::from_vec(edges),
        wires: WireIds::from_vec(wires),
    })
}

/// The numbers of the edges at these places.
fn edges_at(board: &Board, places: &[EdgeId]) -> Result<Vec<EdgeId>, NoMemory>
    requires { All (λ k. k < length board.now.edges.items) places.now }
    ensures { IfOk result (λ edges. edges.items ≡ map (slice_index (ids board.now.edges.items)) places.now) }
{
    let numbers = board.edges.numbers()?;
    let mut edges = Vec::with_capacity(*board.inputs.allocator(), places.len())?;
    for k in places {
        edges.push(EdgeId(numbers[k.0 as usize]))?;
    }
    Ok(edges)
}

/// The numbers of the wires at these places.
fn wires_at(board: &Board, places: &[WireId]) -> Result<Vec<WireId>, NoMemory>
    requires { All (λ w. w < length board.now.wires.items) places.now }
    ensures { IfOk result (λ wires. wires.items ≡ map (slice_index (ids board.now.wires.items)) places.now) }
{
    let numbers = board.wires.numbers()?;
    let mut wires = Vec::with_capacity(*board.inputs.allocator(), places.len())?;
    for w in places {
        wires.push(WireId(numbers[w.0 as usize]))?;
    }
    Ok(wires)
}
