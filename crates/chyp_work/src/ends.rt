// Notes of what makes and of what uses the wires of a board.
ghost use Rattle.std.specs.Prelude.{◌≡◌, ℕ, ◌<◌, ◌^◌, List, [], Some, length};
ghost use Rattle.chyp_term.proofs.Members.{Member};
ghost use Rattle.chyp_store.specs.Items.{item_at};
ghost use Rattle.chyp_work.specs.Board.{IsFiled, wires_of};
ghost use Rattle.chyp_work.specs.Filling.{AreNoted, HasFewPorts, IsMade, IsUsed, KeepsEnds, KnowsMaker, KnowsUser, end_of};
ghost use Rattle.chyp_work.specs.declared.board.EdgeItem.{EdgeItem};

use crate::board::{Board, WireItem, note_consumer, note_producer};
use crate::end::End;
use chyp_graph::{EdgeId, WireId};
use chyp_store::Store;

/// The end at this place among the ports of the edge, or among the inputs or the outputs.
fn end_at(edge: &Option<EdgeId>, i: u32) -> End
    ensures { result ≡ end_of edge.now i }
{
    match edge {
        Some(k) => End::Port(*k, i),
        None => End::Outside(i),
    }
}

/// Notes that the targets of the edge, or the inputs, make these wires.
fn note_makers(wires: &mut Store<WireItem>, edge: Option<EdgeId>, ports: &[WireId])
    requires { length ports.now < 2 ^ 32 }
    ensures items { AreNoted (IsMade (end_of edge) ports.now) wires.old.items wires.new.items }
    ensures rest { wires.new ≡ record wires.old { items = wires.new.items } }
{
    for (i, w) in ports.iter().enumerate() {
        wires.apart();
        note_producer(wires, *w, end_at(&edge, i as u32));
    }
}

/// Notes that the sources of the edge, or the outputs, use these wires.
fn note_users(wires: &mut Store<WireItem>, edge: Option<EdgeId>, ports: &[WireId])
    requires { length ports.now < 2 ^ 32 }
    ensures items { AreNoted (IsUsed (end_of edge) ports.now) wires.old.items wires.new.items }
    ensures rest { wires.new ≡ record wires.old { items = wires.new.items } }
{
    for (i, w) in ports.iter().enumerate() {
        wires.apart();
        note_consumer(wires, *w, end_at(&edge, i as u32));
    }
}

/// Notes the ends of the wires at the ports of the edge.
fn note_edge(board: &mut Board, k: EdgeId)
    requires { (e : EdgeItem) → item_at k board.old.edges.items ≡ Some e → HasFewPorts e }
    ensures kept { KeepsEnds board.old board.new }
    ensures makers { (w : ℕ) (e : EdgeItem) → item_at k board.old.edges.items ≡ Some e → Member w e.targets.items → KnowsMaker board.new w }
    ensures users { (w : ℕ) (e : EdgeItem) → item_at k board.old.edges.items ≡ Some e → Member w e.sources.items → KnowsUser board.new w }
{
    match board.edges.get(k.0) {
        Some(item) => {
            note_makers(&mut board.wires, Some(k), item.targets.as_slice());
            note_users(&mut board.wires, Some(k), item.sources.as_slice());
            return;
        }
        None => return,
    }
}

/// Notes the ends of the wires at the ports of these edges.
pub(crate) fn note_edges(board: &mut Board, ks: &[EdgeId])
    requires { (k : ℕ) (e : EdgeItem) → Member k ks.now → item_at k board.old.edges.items ≡ Some e → HasFewPorts e }
    ensures kept { KeepsEnds board.old board.new }
    ensures makers { (k w : ℕ) (e : EdgeItem) → Member k ks.now → item_at k board.old.edges.items ≡ Some e → Member w e.targets.items
        → KnowsMaker board.new w }
    ensures users { (k w : ℕ) (e : EdgeItem) → Member k ks.now → item_at k board.old.edges.items ≡ Some e → Member w e.sources.items
        → KnowsUser board.new w }
{
    for k in ks {
        note_edge(board, *k);
    }
}

/// Gives a board that has no inputs these ones.
pub(crate) fn set_inputs(board: &mut Board, inputs: Vec<WireId>)
    requires none { board.old.inputs.items ≡ [] }
    requires short { length inputs.items < 2 ^ 32 }
    ensures inputs { board.new.inputs.items ≡ inputs.items }
    ensures rest { board.new ≡ record board.old { wires = board.new.wires; inputs = board.new.inputs } }
    ensures sorts { wires_of board.new.wires.items ≡ wires_of board.old.wires.items }
    ensures known { (w : ℕ) → KnowsMaker board.old w → KnowsMaker board.new w }
    ensures makers { (w : ℕ) → Member w inputs.items → KnowsMaker board.new w }
    ensures users { (w : ℕ) → KnowsUser board.old w → KnowsUser board.new w }
    ensures filed { IsFiled board.old → IsFiled board.new }
{
    note_makers(&mut board.wires, None, &inputs);
    board.inputs = inputs;
}

/// Gives a board that has no outputs these ones.
pub(crate) fn set_outputs(board: &mut Board, outputs: Vec<WireId>)
    requires none { board.old.outputs.items ≡ [] }
    requires short { length outputs.items < 2 ^ 32 }
    ensures outputs { board.new.outputs.items ≡ outputs.items }
    ensures rest { board.new ≡ record board.old { wires = board.new.wires; outputs = board.new.outputs } }
    ensures sorts { wires_of board.new.wires.items ≡ wires_of board.old.wires.items }
    ensures known { (w : ℕ) → KnowsUser board.old w → KnowsUser board.new w }
    ensures users { (w : ℕ) → Member w outputs.items → KnowsUser board.new w }
    ensures makers { (w : ℕ) → KnowsMaker board.old w → KnowsMaker board.new w }
    ensures filed { IsFiled board.old → IsFiled board.new }
{
    note_users(&mut board.wires, None, &outputs);
    board.outputs = outputs;
}
