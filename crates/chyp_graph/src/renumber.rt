// Wires and edges under new numbers.
ghost use Rattle.std.specs.Prelude.{◌≡◌, ◌<◌, ◌++◌, All, IfOk, length, map, slice_index};
ghost use Rattle.chyp_graph.specs.PlainGraph.{renamed};

use crate::{EdgePart, PortList, WireId};
use chyp_base::{NoMemory, Sort};

/// Adds the wires under their new numbers to a list: the wire w has the number `numbers[w]`.
pub(crate) fn push_wires(
    list: &mut Vec<WireId>,
    wires: &[WireId],
    numbers: &[WireId],
) -> Result<(), NoMemory>
    requires { All (λ w. w < length numbers.now) wires.now }
    ensures { IfOk result (λ _. list.new.items ≡ list.old.items ++ map (slice_index numbers.now) wires.now) }
{
    for wire in wires {
        list.push(numbers[wire.0 as usize])?;
    }
    Ok(())
}

/// The wires under their new numbers.
fn renumbered(wires: &PortList, numbers: &[WireId]) -> Result<PortList, NoMemory>
    requires { All (λ w. w < length numbers.now) wires.now }
    ensures { IfOk result (λ renamed. renamed ≡ map (slice_index numbers.now) wires.now) }
{
    let mut list = Vec::new(wires.allocator());
    push_wires(&mut list, wires.as_slice(), numbers)?;
    Ok(PortList::from_vec(list))
}

/// Adds the edges to a list, with their wires under their new numbers.
pub(crate) fn push_edges(
    list: &mut Vec<EdgePart>,
    edges: &[EdgePart],
    numbers: &[WireId],
) -> Result<(), NoMemory>
    requires { All (λ e. All (λ w. w < length numbers.now) e.sources × All (λ w. w < length numbers.now) e.targets) edges.now }
    ensures { IfOk result (λ _. list.new.items ≡ list.old.items ++ map (renamed (slice_index numbers.now)) edges.now) }
{
    for edge in edges {
        list.push(EdgePart {
            name: edge.name.share()?,
            sources: renumbered(&edge.sources, numbers)?,
            targets: renumbered(&edge.targets, numbers)?,
        })?;
    }
    Ok(())
}

/// The same edges.
pub(crate) fn copied_edges(edges: &Vec<EdgePart>) -> Result<Vec<EdgePart>, NoMemory>
    ensures { IfOk result (λ copy. copy.items ≡ edges.now.items) }
{
    Ok(edges.clone()?)
}

/// The same sorts of wires.
pub(crate) fn copied_wires(wires: &Vec<Sort>) -> Result<Vec<Sort>, NoMemory>
    ensures { IfOk result (λ copy. copy.items ≡ wires.now.items) }
{
    Ok(wires.clone()?)
}
