// Boards in which other wires take the ends of some.
ghost use Rattle.std.specs.Prelude.{◌≡◌, ℕ, true};
ghost use Rattle.chyp_term.proofs.Members.{Member};
ghost use Rattle.chyp_term.specs.Positions.{is_apart};
ghost use Rattle.chyp_work.specs.Board.{IsFiled, net};
ghost use Rattle.chyp_work.specs.Filling.{KnowsMaker, KnowsUser};
ghost use Rattle.chyp_work.specs.Rerouting.{MayReroute, made_by, made_in, used_by, used_in};

use crate::board::Board;
use chyp_graph::WireId;

/// What made each of the images makes the one of the ends that is at the same place.
pub(crate) fn reroute_producers(board: &mut Board, images: &[WireId], ends: &[WireId])
    requires { MayReroute (KnowsMaker board.old) (made_in (net board.old)) board.old.wires.items images.now ends.now }
    ensures graph { net board.new ≡ made_by images.now ends.now (net board.old) }
    ensures rest { board.new ≡ record board.old { wires = board.new.wires; edges = board.new.edges; inputs = board.new.inputs } }
    ensures kept { (w : ℕ) → is_apart images.now w ≡ true → KnowsMaker board.old w → KnowsMaker board.new w }
    ensures makers { (v : ℕ) → Member v ends.now → KnowsMaker board.new v }
    ensures users { (w : ℕ) → KnowsUser board.old w → KnowsUser board.new w }
    ensures filed { IsFiled board.old → IsFiled board.new }
{
    for (i, image) in images.iter().enumerate() {
        board.edges.apart();
        board.wires.apart();
        board.reroute_producer(*image, ends[i]);
    }
}

/// What used each of the images uses the one of the ends that is at the same place.
pub(crate) fn reroute_consumers(board: &mut Board, images: &[WireId], ends: &[WireId])
    requires { MayReroute (KnowsUser board.old) (used_in (net board.old)) board.old.wires.items images.now ends.now }
    ensures graph { net board.new ≡ used_by images.now ends.now (net board.old) }
    ensures rest { board.new ≡ record board.old { wires = board.new.wires; edges = board.new.edges; outputs = board.new.outputs } }
    ensures kept { (w : ℕ) → is_apart images.now w ≡ true → KnowsUser board.old w → KnowsUser board.new w }
    ensures users { (v : ℕ) → Member v ends.now → KnowsUser board.new v }
    ensures makers { (w : ℕ) → KnowsMaker board.old w → KnowsMaker board.new w }
    ensures filed { IsFiled board.old → IsFiled board.new }
{
    for (i, image) in images.iter().enumerate() {
        board.edges.apart();
        board.wires.apart();
        board.reroute_consumer(*image, ends[i]);
    }
}
