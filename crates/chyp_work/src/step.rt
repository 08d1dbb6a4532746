// Steps of boards: the image of one side of a rule goes, and the other side comes in its place.
ghost use Rattle.std.specs.Prelude.{◌≡◌, IfOk, OnErr, OnOk, length, map, slice_index};
ghost use Rattle.chyp_work.specs.Board.{IsWork, net};
ghost use Rattle.chyp_work.specs.Filling.{HasRoomFor};
ghost use Rattle.chyp_work.specs.Step.{AreTaken, IsJoinedAt, IsStepAt, MayStepAt};

use crate::board::{Board, remove_edges, remove_wires};
use crate::filling::{Ends, ends_of, put, renamed_ends};
use crate::parts::Parts;
use crate::plain::wires_at;
use crate::rewiring::{reroute_consumers, reroute_producers};
use chyp_base::NoMemory;
use chyp_graph::Graph;
use chyp_pattern::Occurrence;
use std::alloc::Global;

/// Where a step is made: the two sides of its rule, and the occurrence of the left one.
#[derive(Drop)]
pub(crate) struct Site<'a> {
    pub(crate) left: &'a Graph,
    pub(crate) right: &'a Graph,
    pub(crate) at: &'a Occurrence,
}

/// What a step has of its own: the parts of the right side, the images of the inputs and the outputs of
/// the left side, and the inputs and the outputs of the right side.
#[derive(Drop)]
pub(crate) struct Taken {
    pub(crate) parts: Parts,
    pub(crate) images: Ends,
    pub(crate) ends: Ends,
}

impl Taken {
    /// All that the step wants memory for, but for the room in the board.
    fn of(alloc: Global, site: &Site<'_>) -> Result<Taken, NoMemory>
        requires { length site.now.at.now.wires ≡ length site.now.left.now.wires }
        ensures { IfOk result (λ taken. AreTaken site.now taken) }
    {
        let images = images_of(alloc, site)?;
        let ends = ends_of(alloc, site.right)?;
        let parts = Parts::of(alloc, site.right)?;
        Ok(Taken {
            parts,
            images,
            ends,
        })
    }
}

/// The images of the inputs and of the outputs of the left side.
fn images_of(alloc: Global, site: &Site<'_>) -> Result<Ends, NoMemory>
    requires { length site.now.at.now.wires ≡ length site.now.left.now.wires }
    ensures inputs { IfOk result (λ images. images.inputs.items ≡ map (slice_index site.now.at.now.wires) site.now.left.now.inputs) }
    ensures outputs { IfOk result (λ images. images.outputs.items ≡ map (slice_index site.now.at.now.wires) site.now.left.now.outputs) }
{
    site.left.valid();
    let wires = site.at.wires.as_slice();
    let inputs = wires_at(alloc, site.left.inputs(), wires)?;
    let outputs = wires_at(alloc, site.left.outputs(), wires)?;
    Ok(Ends { inputs, outputs })
}

/// The right side comes beside what is there, and its inputs and outputs take the places of the images
/// of those of the left side. It takes no memory.
fn join_in(board: &mut Board, site: &Site<'_>, taken: Taken)
    requires work { IsWork board.old }
    requires step { MayStepAt (net board.old) site.now }
    requires taken { AreTaken site.now taken }
    requires room { HasRoomFor site.now.right.now board.old }
    ensures { IsJoinedAt board.old site.now board.new }
{
    site.right.valid();
    let Taken {
        parts,
        images,
        ends,
    } = taken;
    let numbers = put(board, site.right, parts);
    let ends = renamed_ends(ends, &numbers.wires);
    reroute_producers(board, &images.inputs, &ends.inputs);
    reroute_consumers(board, &images.outputs, &ends.outputs);
}

/// Puts the right side in the place of the image of the left side. It takes no memory.
fn replace_in(board: &mut Board, site: &Site<'_>, taken: Taken)
    requires work { IsWork board.old }
    requires step { MayStepAt (net board.old) site.now }
    requires taken { AreTaken site.now taken }
    requires room { HasRoomFor site.now.right.now board.old }
    ensures work { IsWork board.new }
    ensures step { IsStepAt (net board.old) site.now (net board.new) }
{
    join_in(board, site, taken);
    remove_edges(board, site.at.edges.as_slice());
    remove_wires(board, site.at.wires.as_slice());
    board.edges.apart();
    board.wires.apart();
}

/// Replaces the image of the left side by the right side. All memory is taken first.
pub(crate) fn step_in(board: &mut Board, site: &Site<'_>) -> Result<(), NoMemory>
    requires work { IsWork board.old }
    requires step { MayStepAt (net board.old) site.now }
    ensures work { IsWork board.new }
    ensures step { OnOk result (IsStepAt (net board.old) site.now (net board.new)) }
    ensures kept { OnErr result (net board.new ≡ net board.old) }
{
    let alloc = *board.inputs.allocator();
    board.reserve(site.right)?;
    let taken = Taken::of(alloc, site)?;
    replace_in(board, site, taken);
    Ok(())
}
