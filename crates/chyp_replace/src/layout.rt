// The wires of a graph that are no image, and then those of another graph.
ghost use Rattle.std.specs.Prelude.{◌≡◌, ◌+◌, ◌<◌, ◌^◌, ◌++◌, All, IfOk, length, map};
ghost use Rattle.chyp_term.specs.Perm.{count_from, permuted};
ghost use Rattle.chyp_pattern.specs.Replacement.{kept_wires};
ghost use Rattle.chyp_replace.specs.Layout.{IsLayout};
ghost use Rattle.chyp_replace.specs.Numbers.{kept_before};

use crate::images::wire_marks;
use chyp_base::{NoMemory, Sort};
use chyp_graph::{Graph, WireId};
use std::alloc::Global;

/// The wires of a graph with an occurrence replaced, and numbers for where they come from.
#[derive(Drop)]
pub(crate) struct Layout {
    /// The sorts of the wires.
    pub(crate) wires: Vec<Sort>,
    /// How many kept wires come before each wire of the graph.
    pub(crate) kept: Vec<WireId>,
    /// The number of each wire of the right side.
    pub(crate) moved: Vec<WireId>,
}

impl Layout {
    /// The wires of the graph that are none of the images, and then those of the right side.
    pub(crate) fn of(
        alloc: Global,
        graph: &Graph,
        right: &Graph,
        images: &[WireId],
    ) -> Result<Layout, NoMemory>
        requires within { All (λ w. w < length graph.now.wires) images.now }
        requires few { length graph.now.wires + length right.now.wires < 2 ^ 31 }
        ensures { IfOk result (λ layout. IsLayout graph.now right.now images.now layout) }
    {
        let (mut wires, kept) = kept_wires(alloc, graph, images)?;
        let moved = add_wires(&mut wires, right)?;
        Ok(Layout { wires, kept, moved })
    }
}

/// The wires of the graph that are none of the images, and how many of them come before each wire of
/// the graph.
fn kept_wires(
    alloc: Global,
    graph: &Graph,
    images: &[WireId],
) -> Result<(Vec<Sort>, Vec<WireId>), NoMemory>
    requires { All (λ w. w < length graph.now.wires) images.now }
    ensures wires { IfOk result (λ kept. kept.0.items ≡ permuted graph.now.wires (kept_wires graph.now images.now)) }
    ensures before { IfOk result (λ kept. kept.1.items ≡ map (kept_before images.now) (count_from 0 (length graph.now.wires))) }
{
    let count = graph.wire_count();
    let marks = wire_marks(alloc, count, images)?;
    let mut wires = Vec::new(alloc);
    let mut before = Vec::with_capacity(alloc, count as usize)?;
    for w in 0..count {
        before.push(WireId(wires.len() as u32))?;
        if !marks[w as usize] {
            wires.push(graph.wire_sort(WireId(w)).share()?)?;
        }
    }
    Ok((wires, before))
}

/// Adds the wires of a graph behind others, and gives their numbers.
fn add_wires(wires: &mut Vec<Sort>, graph: &Graph) -> Result<Vec<WireId>, NoMemory>
    requires { length wires.old.items + length graph.now.wires < 2 ^ 31 }
    ensures numbers { IfOk result (λ numbers. numbers.items ≡ count_from (length wires.old.items) (length graph.now.wires)) }
    ensures wires { IfOk result (λ _. wires.new.items ≡ wires.old.items ++ graph.now.wires) }
{
    let count = graph.wire_count();
    let mut numbers = Vec::with_capacity(*wires.allocator(), count as usize)?;
    for w in 0..count {
        numbers.push(WireId(wires.len() as u32))?;
        wires.push(graph.wire_sort(WireId(w)).share()?)?;
    }
    Ok(numbers)
}
