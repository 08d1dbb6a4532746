// The rounds in which edges are taken away.
ghost use Rattle.std.specs.Prelude.{◌≡◌, ℕ, ◌+◌, ◌<◌, ◌⊎◌, ◌^◌, All, IfOk, length, slice_index};
ghost use Rattle.chyp_graph.specs.Removal.{IsTopologicalOrder, IsWritten};
ghost use Rattle.chyp_graph.specs.Rounds.{AreRounds};
ghost use Rattle.chyp_graph.specs.Validity.{IsValid};

use crate::{EdgeId, Graph, WireId};
use chyp_base::NoMemory;
use std::alloc::Global;

/// The rounds of the edges, from a topological order of them. The level of a wire is the number of
/// rounds after which it is live.
pub(crate) fn rounds_in(
    alloc: Global,
    graph: &Graph,
    order: &[EdgeId],
) -> Result<Vec<u32>, NoMemory>
    requires valid { IsValid graph.now }
    requires order { IsTopologicalOrder graph.now order.now }
    ensures { IfOk result (λ rounds. AreRounds graph.now rounds.items) }
{
    let mut rounds = vec![in alloc; 0; graph.edge_count() as usize]?;
    let mut levels = vec![in alloc; 0; graph.wire_count() as usize]?;
    for k in order {
        let edge = graph.edge(*k);
        let round = round_after(edge.sources, &levels);
        rounds[k.0 as usize] = round;
        write_at(&mut levels, edge.targets, round);
    }
    Ok(rounds)
}

/// The first number that is above 0 and above those of the wires.
fn round_after(wires: &[WireId], levels: &[u32]) -> u32
    requires within { All (λ w. w < length levels.now) wires.now }
    requires few { All (λ n. n < 2 ^ 31) levels.now }
    ensures above { (i : ℕ) → i < length wires.now → slice_index levels.now (slice_index wires.now i) < result }
    ensures least { (result ≡ 1) ⊎ ((i : ℕ) × (i < length wires.now) × (slice_index levels.now (slice_index wires.now i) + 1 ≡ result)) }
{
    let mut round = 1;
    for w in wires {
        round = round.max(levels[w.0 as usize] + 1);
    }
    round
}

/// Writes a number at wires.
fn write_at(levels: &mut [u32], wires: &[WireId], round: u32)
    requires { All (λ w. w < length levels.old) wires.now }
    ensures { IsWritten wires.now round levels.old levels.new }
{
    for w in wires {
        levels[w.0 as usize] = round;
    }
}
