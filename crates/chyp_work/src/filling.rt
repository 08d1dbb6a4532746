// Boards that take the wires and the edges of a graph.
ghost use Rattle.std.specs.Prelude.{◌≡◌, ◌<◌, All, IfOk, [], length, map, slice_index};
ghost use Rattle.chyp_work.specs.Board.{IsFiled, net};
ghost use Rattle.chyp_work.specs.Filling.{AreParts, HasRoomFor, IsBoardOf, IsPut};

use crate::board::{Board, add_edges, add_wires, rename};
use crate::ends::{note_edges, set_inputs, set_outputs};
use crate::parts::Parts;
use chyp_base::NoMemory;
use chyp_graph::{EdgeId, Graph, WireId};
use std::alloc::Global;

/// The inputs and the outputs of a graph.
#[derive(Drop)]
pub(crate) struct Ends {
    pub(crate) inputs: Vec<WireId>,
    pub(crate) outputs: Vec<WireId>,
}

/// The numbers that the wires and the edges of a graph got, in order.
#[derive(Drop)]
pub(crate) struct Numbers {
    pub(crate) wires: Vec<WireId>,
    pub(crate) edges: Vec<EdgeId>,
}

/// Puts the wires and the edges of the graph behind those of the board, with the ends at the ports of
/// these edges, and answers their numbers. It takes no memory.
pub(crate) fn put(board: &mut Board, graph: &Graph, parts: Parts) -> Numbers
    requires filed { IsFiled board.old }
    requires parts { AreParts graph.now parts }
    requires room { HasRoomFor graph.now board.old }
    ensures { IsPut board.old board.new graph.now result.edges.items result.wires.items }
{
    graph.valid();
    let Parts {
        sorts,
        edges,
        mut wire_ids,
        mut edge_ids,
    } = parts;
    add_wires(board, sorts, &mut wire_ids);
    add_edges(board, edges, &wire_ids, &mut edge_ids);
    board.edges.apart();
    note_edges(board, &edge_ids);
    board.wires.apart();
    Numbers {
        wires: wire_ids,
        edges: edge_ids,
    }
}

/// The board of a graph.
pub(crate) fn board_of(graph: &Graph) -> Result<Board, NoMemory>
    ensures { IfOk result (λ board. IsBoardOf graph.now board) }
{
    let alloc = graph.allocator();
    let ends = ends_of(alloc, graph)?;
    let parts = Parts::of(alloc, graph)?;
    let mut board = room_for(alloc, graph)?;
    fill(&mut board, graph, parts, ends);
    Ok(board)
}

/// The inputs and the outputs of the graph.
pub(crate) fn ends_of(alloc: Global, graph: &Graph) -> Result<Ends, NoMemory>
    ensures inputs { IfOk result (λ ends. ends.inputs.items ≡ graph.now.inputs) }
    ensures outputs { IfOk result (λ ends. ends.outputs.items ≡ graph.now.outputs) }
{
    let inputs = Vec::from_slice(alloc, graph.inputs())?;
    let outputs = Vec::from_slice(alloc, graph.outputs())?;
    Ok(Ends { inputs, outputs })
}

/// A board of nothing, with the memory for the wires and the edges of the graph.
fn room_for(alloc: Global, graph: &Graph) -> Result<Board, NoMemory>
    ensures nothing { IfOk result (λ board. net board ≡ record { edges = []; wires = []; inputs = []; outputs = [] }) }
    ensures filed { IfOk result (λ board. IsFiled board) }
    ensures room { IfOk result (λ board. HasRoomFor graph.now board) }
{
    let mut board = Board::new(alloc);
    board.reserve(graph)?;
    Ok(board)
}

/// Puts the graph into a board of nothing. It takes no memory.
fn fill(board: &mut Board, graph: &Graph, parts: Parts, ends: Ends)
    requires nothing { net board.old ≡ record { edges = []; wires = []; inputs = []; outputs = [] } }
    requires filed { IsFiled board.old }
    requires room { HasRoomFor graph.now board.old }
    requires parts { AreParts graph.now parts }
    requires inputs { ends.inputs.items ≡ graph.now.inputs }
    requires outputs { ends.outputs.items ≡ graph.now.outputs }
    ensures { IsBoardOf graph.now board.new }
{
    graph.valid();
    let numbers = put(board, graph, parts);
    let Ends { inputs, outputs } = renamed_ends(ends, &numbers.wires);
    set_inputs(board, inputs);
    set_outputs(board, outputs);
}

/// The ends, with the wire at each place in place of the place.
pub(crate) fn renamed_ends(ends: Ends, wires: &[WireId]) -> Ends
    requires inputs { All (λ w. w < length wires.now) ends.inputs.items }
    requires outputs { All (λ w. w < length wires.now) ends.outputs.items }
    ensures inputs { result.inputs.items ≡ map (slice_index wires.now) ends.inputs.items }
    ensures outputs { result.outputs.items ≡ map (slice_index wires.now) ends.outputs.items }
{
    let mut ends = ends;
    rename(&mut ends.inputs, wires);
    rename(&mut ends.outputs, wires);
    ends
}
