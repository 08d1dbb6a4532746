// Tables of ports: of each wire, the edge and the place where it stands on one side.
ghost use Rattle.std.specs.Prelude.{◌≡◌, ℕ, ◌<◌, ◌≤◌, ◌+◌, ◌^◌, All, IfOk, List, Option, Some, length, slice_get, take};
ghost use Rattle.chyp_graph.specs.Graph.{IsTable};
ghost use Rattle.chyp_graph.specs.PortTable.{AreNoted, HasPortsWithin, ports_on};

use crate::side::Side;
use crate::{EdgeId, EdgePart, WireId};
use std::alloc::{AllocError, Global};

/// An edge, and a place among its targets or its sources.
pub(crate) type Port = Option<(EdgeId, u32)>;

/// Where each of the wires is a port on this side of one of the edges.
pub(crate) fn table_of(
    alloc: Global,
    wires: usize,
    edges: &[EdgePart],
    side: Side,
) -> Result<Vec<Port>, AllocError>
    requires few { length edges.now < 2 ^ 31 }
    requires ports { All (HasPortsWithin side wires) edges.now }
    ensures { IfOk result (λ table. IsTable (ports_on side) edges.now wires table.items) }
{
    let mut table = vec![in alloc; None; wires]?;
    for (k, edge) in edges.iter().enumerate() {
        note(&mut table, EdgeId(k as u32), ports_on(edge, side));
    }
    Ok(table)
}

/// The wires of the edge on this side, in order.
fn ports_on(edge: &EdgePart, side: Side) -> &[WireId]
    ensures { result.now ≡ ports_on side edge.now }
{
    match side {
        Side::Sources => edge.sources.as_slice(),
        Side::Targets => edge.targets.as_slice(),
    }
}

/// Notes of each wire in the list that it is a port of the edge, at its place in the list.
fn note(table: &mut [Port], edge: EdgeId, wires: &[WireId])
    requires within { All (λ w. w < length table.old) wires.now }
    requires short { length wires.now < 2 ^ 32 }
    ensures { AreNoted edge wires.now table.old table.new }
{
    for (i, wire) in wires.iter().enumerate() {
        table[wire.0 as usize] = Some((edge, i as u32));
    }
}
