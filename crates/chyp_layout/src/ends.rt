// The two ends of each wire.
ghost use Rattle.std.specs.Prelude.{◌≡◌, ◌<◌, ◌^◌, All, IfOk, length};
ghost use Rattle.chyp_graph.specs.Validity.{IsValid};
ghost use Rattle.chyp_layout.specs.Ends.{AreApart, ArePlaces, ends_of, from_of, to_of};

use chyp_base::NoMemory;
use chyp_graph::{Graph, WireId};
use chyp_picture::End;
use std::alloc::Global;

/// The two ends of a wire.
#[derive(Clone, Copy, Debug)]
pub struct Ends {
    /// The input or the target of an edge that it is.
    pub from: End,
    /// The output or the source of an edge that it is.
    pub to: End,
}

/// The two ends of each wire.
pub(crate) fn all_ends(alloc: Global, graph: &Graph) -> Result<Vec<Ends>, NoMemory>
    ensures { IfOk result (λ ends. ends.items ≡ ends_of graph.now) }
{
    let count = graph.wire_count();
    let inputs = places_in(alloc, count, graph.inputs())?;
    let outputs = places_in(alloc, count, graph.outputs())?;
    let mut ends = Vec::with_capacity(alloc, count as usize)?;
    for w in 0..count {
        ends.push(Ends {
            from: from(graph, WireId(w), &inputs),
            to: to(graph, WireId(w), &outputs),
        })?;
    }
    Ok(ends)
}

/// Of each of so many wires that is in the list, its place there.
fn places_in(alloc: Global, count: u32, wires: &[WireId]) -> Result<Vec<u32>, NoMemory>
    requires within { All (λ w. w < count) wires.now }
    requires few { length wires.now < 2 ^ 32 }
    requires apart { AreApart wires.now }
    ensures size { IfOk result (λ places. length places.items ≡ count) }
    ensures places { IfOk result (λ places. ArePlaces wires.now places.items) }
{
    let mut places = vec![in alloc; 0; count as usize]?;
    for (i, wire) in wires.iter().enumerate() {
        places[wire.0 as usize] = i as u32;
    }
    Ok(places)
}

/// Where a wire begins.
fn from(graph: &Graph, wire: WireId, inputs: &[u32]) -> End
    requires valid { IsValid graph.now }
    requires wire { wire < length graph.now.wires }
    requires size { length inputs.now ≡ length graph.now.wires }
    requires places { ArePlaces graph.now.inputs inputs.now }
    ensures { result ≡ from_of graph.now wire }
{
    match graph.producer(wire) {
        Some((edge, port)) => End::Port {
            box_index: edge.0,
            port,
        },
        None => End::Input(inputs[wire.0 as usize]),
    }
}

/// Where a wire ends.
fn to(graph: &Graph, wire: WireId, outputs: &[u32]) -> End
    requires valid { IsValid graph.now }
    requires wire { wire < length graph.now.wires }
    requires size { length outputs.now ≡ length graph.now.wires }
    requires places { ArePlaces graph.now.outputs outputs.now }
    ensures { result ≡ to_of graph.now wire }
{
    match graph.consumer(wire) {
        Some((edge, port)) => End::Port {
            box_index: edge.0,
            port,
        },
        None => End::Output(outputs[wire.0 as usize]),
    }
}
