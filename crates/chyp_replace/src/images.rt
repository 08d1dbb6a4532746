// Which edges and which wires of a graph are images.
ghost use Rattle.std.specs.Prelude.{◌<◌, All, IfOk};
ghost use Rattle.chyp_replace.specs.Images.{AreMarked};

use chyp_base::NoMemory;
use chyp_graph::{EdgeId, WireId};
use std::alloc::Global;

/// Whether each of this many edges is one of the images.
pub(crate) fn edge_marks(
    alloc: Global,
    count: u32,
    images: &[EdgeId],
) -> Result<Vec<bool>, NoMemory>
    requires { All (λ k. k < count) images.now }
    ensures { IfOk result (λ marks. AreMarked images.now count marks.items) }
{
    let mut marks = vec![in alloc; false; count as usize]?;
    for edge in images {
        marks[edge.0 as usize] = true;
    }
    Ok(marks)
}

/// Whether each of this many wires is one of the images.
pub(crate) fn wire_marks(
    alloc: Global,
    count: u32,
    images: &[WireId],
) -> Result<Vec<bool>, NoMemory>
    requires { All (λ w. w < count) images.now }
    ensures { IfOk result (λ marks. AreMarked images.now count marks.items) }
{
    let mut marks = vec![in alloc; false; count as usize]?;
    for wire in images {
        marks[wire.0 as usize] = true;
    }
    Ok(marks)
}
