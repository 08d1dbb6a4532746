// Views of graphs.
ghost use Rattle.std.specs.Prelude.{◌≡◌, ◌<◌, ◌↔◌, All, Contains, IfSome, IsNone, Some};
ghost use Rattle.chyp_graph.specs.Graph.{lent_edge};
ghost use Rattle.chyp_match.specs.View.{IsIn, IsSeen, Seen, item_at, named_in, net_of, sorted_in, source_in, target_in};

use chyp_base::{Name, Sort};
use chyp_graph::{EdgeId, EdgeView, WireId};

/// A graph whose edges and wires have numbers, which need not be their places. No call takes memory.
pub trait View {
    /// The graph, and the number of each of its edges and wires, in order.
    ghost seen: { Self → Seen };

    /// The edge of this number.
    fn edge(&self, k: EdgeId) -> EdgeView<'_>
        requires { IsIn k (net_of (seen self.now)).edges }
        ensures { item_at k (net_of (seen self.now)).edges ≡ Some (lent_edge result) };

    /// The sort of the wire of this number.
    fn wire_sort(&self, w: WireId) -> &Sort
        requires { IsIn w (net_of (seen self.now)).wires }
        ensures { item_at w (net_of (seen self.now)).wires ≡ Some result.now };

    /// The edge that makes the wire, and the wire's place among its targets; None exactly for an
    /// input.
    fn producer(&self, w: WireId) -> Option<(EdgeId, u32)>
        requires { IsIn w (net_of (seen self.now)).wires }
        ensures port { IfSome result (λ port. target_in (net_of (seen self.now)) port.0 port.1 ≡ Some w) }
        ensures input { IsNone result ↔ Contains (net_of (seen self.now)).inputs w };

    /// The edge that consumes the wire, and the wire's place among its sources; None exactly for an
    /// output.
    fn consumer(&self, w: WireId) -> Option<(EdgeId, u32)>
        requires { IsIn w (net_of (seen self.now)).wires }
        ensures port { IfSome result (λ port. source_in (net_of (seen self.now)) port.0 port.1 ≡ Some w) }
        ensures output { IsNone result ↔ Contains (net_of (seen self.now)).outputs w };

    /// The inputs, in order.
    fn inputs(&self) -> &[WireId]
        ensures inputs { result.now ≡ (net_of (seen self.now)).inputs }
        ensures seen { IsSeen (seen self.now) };

    /// The outputs, in order.
    fn outputs(&self) -> &[WireId]
        ensures { result.now ≡ (net_of (seen self.now)).outputs };

    /// The edges of this name, in order.
    fn named(&self, name: &Name) -> &[EdgeId]
        ensures { result.now ≡ named_in (net_of (seen self.now)) name.now };

    /// The wires of this sort, in order.
    fn wires_of(&self, sort: &Sort) -> &[WireId]
        ensures { result.now ≡ sorted_in (net_of (seen self.now)) sort.now.name };

    /// A number that is above those of all edges.
    fn edge_bound(&self) -> u32
        ensures { All (λ e. e.0 < result) (net_of (seen self.now)).edges };

    /// A number that is above those of all wires.
    fn wire_bound(&self) -> u32
        ensures { All (λ e. e.0 < result) (net_of (seen self.now)).wires };
}
