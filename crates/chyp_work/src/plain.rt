// The plain graph of a board, made anew.
ghost use Rattle.std.specs.Prelude.{◌≡◌, ℕ, ◌<◌, ◌^◌, All, IfOk, length, map, slice_index};
ghost use Rattle.chyp_match.specs.View.{IsIn};
ghost use Rattle.chyp_graph.specs.PlainGraph.{renamed};
ghost use Rattle.chyp_store.specs.Items.{ids};
ghost use Rattle.chyp_work.specs.Board.{HasPortsBelow, IsWork, edge_of, net};
ghost use Rattle.chyp_work.specs.Net.{place_in, plain};

use crate::board::{Board, EdgeItem, WireItem};
use chyp_base::{NoMemory, Sort, Sorts};
use chyp_graph::{EdgePart, EdgeParts, Graph, PortList, WireId, WireIds};
use chyp_store::Store;
use std::alloc::Global;

/// The plain graph of a board. It takes time and memory in proportion to the board.
pub(crate) fn graph_of(board: &Board) -> Result<Graph, NoMemory>
    requires { IsWork board.now }
    ensures { IfOk result (λ graph. graph ≡ plain (net board.now)) }
{
    let alloc = *board.inputs.allocator();
    let places = places_of(alloc, &board.wires)?;
    let sorts = sorts_of(alloc, &board.wires)?;
    let edges = parts_of(alloc, &board.edges, &places)?;
    let inputs = wires_at(alloc, &board.inputs, &places)?;
    let outputs = wires_at(alloc, &board.outputs, &places)?;
    Graph::of_parts(
        Sorts::from_vec(sorts),
        EdgeParts::from_vec(edges),
        WireIds::from_vec(inputs),
        WireIds::from_vec(outputs),
    )
}

/// The place of each wire in the order, at its number.
fn places_of(alloc: Global, wires: &Store<WireItem>) -> Result<Vec<WireId>, NoMemory>
    requires { length wires.now.items < 2 ^ 31 }
    ensures bound { IfOk result (λ places. (w : ℕ) → IsIn w wires.now.items → w < length places.items) }
    ensures places { IfOk result (λ places. (w : ℕ) → IsIn w wires.now.items
        → slice_index places.items w ≡ place_in (ids wires.now.items) w) }
{
    let numbers = wires.numbers()?;
    wires.apart();
    let mut places = vec![in alloc; WireId(0); wires.bound() as usize]?;
    for (i, w) in numbers.iter().enumerate() {
        places[*w as usize] = WireId(i as u32);
    }
    Ok(places)
}

/// The sorts of the wires, in order.
fn sorts_of(alloc: Global, wires: &Store<WireItem>) -> Result<Vec<Sort>, NoMemory>
    ensures { IfOk result (λ sorts. sorts.items ≡ map (λ e. e.1.sort) wires.now.items) }
{
    let numbers = wires.numbers()?;
    wires.apart();
    let mut sorts = Vec::new(alloc);
    for w in &numbers {
        sorts.push(wires.get(*w).unwrap().sort.share()?)?;
    }
    Ok(sorts)
}

/// The edges, in order, with the places of their wires.
fn parts_of(
    alloc: Global,
    edges: &Store<EdgeItem>,
    places: &[WireId],
) -> Result<Vec<EdgePart>, NoMemory>
    requires { All (λ e. HasPortsBelow (length places.now) e.1) edges.now.items }
    ensures { IfOk result (λ parts. parts.items ≡ map (λ e. renamed (slice_index places.now) (edge_of e.1)) edges.now.items) }
{
    let numbers = edges.numbers()?;
    edges.apart();
    let mut parts = Vec::new(alloc);
    for k in &numbers {
        parts.push(part_of(alloc, edges.get(*k).unwrap(), places)?)?;
    }
    Ok(parts)
}

/// The edge with the places of its wires.
fn part_of(alloc: Global, item: &EdgeItem, places: &[WireId]) -> Result<EdgePart, NoMemory>
    requires { HasPortsBelow (length places.now) item.now }
    ensures { IfOk result (λ part. part ≡ renamed (slice_index places.now) (edge_of item.now)) }
{
    let sources = wires_at(alloc, item.sources.as_slice(), places)?;
    let targets = wires_at(alloc, item.targets.as_slice(), places)?;
    Ok(EdgePart {
        name: item.name.share()?,
        sources: PortList::from_vec(sources),
        targets: PortList::from_vec(targets),
    })
}

/// The places of these wires.
pub(crate) fn wires_at(
    alloc: Global,
    wires: &[WireId],
    places: &[WireId],
) -> Result<Vec<WireId>, NoMemory>
    requires { All (λ w. w < length places.now) wires.now }
    ensures { IfOk result (λ at. at.items ≡ map (slice_index places.now) wires.now) }
{
    let mut at = Vec::with_capacity(alloc, wires.len())?;
    for w in wires {
        at.push(places[w.0 as usize])?;
    }
    Ok(at)
}
