// New numbers of the wires of a graph.
ghost use Rattle.std.specs.Prelude.{◌≡◌, ◌<◌, All, IfOk, length};
ghost use Rattle.chyp_pattern.specs.Replacement.{IsGraphRule};
ghost use Rattle.chyp_replace.specs.Layout.{AreBound};
ghost use Rattle.chyp_replace.specs.Numbers.{AreApart, AreRebound};

use crate::layout::Layout;
use crate::renumbered::renumbered;
use chyp_base::NoMemory;
use chyp_graph::{Graph, WireId};
use std::alloc::Global;

/// New numbers of the wires of a graph, for what uses them and for what makes them.
#[derive(Drop)]
pub(crate) struct Numbers {
    /// The numbers of the wires as sources and as outputs.
    pub(crate) users: Vec<WireId>,
    /// The numbers of the wires as targets and as inputs.
    pub(crate) makers: Vec<WireId>,
}

impl Numbers {
    /// The numbers where the outputs of the right side stand for those of the left side as what uses a
    /// wire has it, and the inputs for the inputs as what makes it has it.
    pub(crate) fn of(
        layout: &Layout,
        left: &Graph,
        right: &Graph,
        images: &[WireId],
    ) -> Result<Numbers, NoMemory>
        requires rule { IsGraphRule left.now right.now }
        requires images { length images.now ≡ length left.now.wires }
        requires within { All (λ w. w < length layout.now.kept.items) images.now }
        requires apart { AreApart images.now }
        requires moved { length layout.now.moved.items ≡ length right.now.wires }
        ensures users { IfOk result (λ numbers. AreBound layout.now images.now left.now.outputs right.now.outputs numbers.users.items) }
        ensures makers { IfOk result (λ numbers. AreBound layout.now images.now left.now.inputs right.now.inputs numbers.makers.items) }
    {
        let alloc = *layout.kept.allocator();
        let outputs = renumbered(alloc, left.outputs(), images)?;
        let new_outputs = renumbered(alloc, right.outputs(), &layout.moved)?;
        let users = rebound(alloc, &layout.kept, &outputs, &new_outputs)?;
        let inputs = renumbered(alloc, left.inputs(), images)?;
        let new_inputs = renumbered(alloc, right.inputs(), &layout.moved)?;
        let makers = rebound(alloc, &layout.kept, &inputs, &new_inputs)?;
        Ok(Numbers { users, makers })
    }
}

/// The numbers, with the ends in the places of these wires.
fn rebound(
    alloc: Global,
    numbers: &[WireId],
    wires: &[WireId],
    ends: &[WireId],
) -> Result<Vec<WireId>, NoMemory>
    requires same { length wires.now ≡ length ends.now }
    requires within { All (λ w. w < length numbers.now) wires.now }
    requires apart { AreApart wires.now }
    ensures { IfOk result (λ after. AreRebound wires.now ends.now numbers.now after.items) }
{
    let mut after = Vec::from_slice(alloc, numbers)?;
    for (i, wire) in wires.iter().enumerate() {
        after[wire.0 as usize] = ends[i];
    }
    Ok(after)
}
