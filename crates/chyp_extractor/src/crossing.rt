// Wires that cross.
ghost use Rattle.std.specs.Prelude.{◌≡◌, ◌<◌, ◌^◌, ◌++◌, All, IfOk, length, map, slice_index};
ghost use Rattle.chyp_term.specs.Term.{morphisms_of};
ghost use Rattle.chyp_graph.specs.Joining.{AreApart};
ghost use Rattle.chyp_extract.specs.Extraction.{counts_from, crossing};
ghost use Rattle.chyp_extractor.specs.Crossing.{ArePlaced, IsReordered};

use crate::layer::{permutation, sorts_at};
use chyp_base::NoMemory;
use chyp_graph::{Graph, WireId};
use chyp_term::Term;
use std::alloc::{AllocError, Global};

/// Adds the permutation that puts live wires in the order that is wanted, unless it is the identity. It
/// writes into a table of places, one for each wire of the graph.
pub(crate) fn push_crossing(
    parts: &mut Vec<Term>,
    graph: &Graph,
    table: &mut [u32],
    live: &[WireId],
    wanted: &[WireId],
) -> Result<(), NoMemory>
    requires table { length table.old ≡ length graph.now.wires }
    requires reordered { IsReordered graph.now live.now wanted.now }
    ensures { IfOk result (λ _. morphisms_of parts.new.items ≡ morphisms_of parts.old.items ++ crossing graph.now live.now wanted.now) }
{
    let alloc = *parts.allocator();
    write_places(table, live);
    let places = places_at(alloc, table, wanted)?;
    if !counts_up(&places) {
        let sorts = sorts_at(alloc, graph, live)?;
        parts.push(permutation(alloc, sorts, places)?)?;
    }
    Ok(())
}

/// Writes at each of the wires its place among them.
fn write_places(table: &mut [u32], live: &[WireId])
    requires within { All (λ w. w < length table.old) live.now }
    requires apart { AreApart live.now }
    requires few { length live.now < 2 ^ 31 }
    ensures { ArePlaced live.now table.new }
{
    for (i, w) in live.iter().enumerate() {
        table[w.0 as usize] = i as u32;
    }
}

/// What the table has at these wires.
fn places_at(alloc: Global, table: &[u32], wires: &[WireId]) -> Result<Vec<u32>, AllocError>
    requires { All (λ w. w < length table.now) wires.now }
    ensures { IfOk result (λ places. places.items ≡ map (λ w. slice_index table.now w) wires.now) }
{
    let mut places = Vec::with_capacity(alloc, wires.len())?;
    for w in wires {
        places.push(table[w.0 as usize])?;
    }
    Ok(places)
}

/// Whether the places count up from 0, one by one.
fn counts_up(places: &[u32]) -> bool
    ensures { result ≡ counts_from 0 places.now }
{
    for (i, place) in places.iter().enumerate() {
        if *place as usize != i {
            return false;
        }
    }
    true
}
