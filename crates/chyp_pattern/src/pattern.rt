// Graphs with their components.
ghost use Rattle.std.specs.Prelude.{◌≡◌, ℕ, ◌<◌, IfOk, Some, length, slice_get};
ghost use Rattle.chyp_pattern.specs.Component.{AreAnchors};

use crate::Anchor;
use crate::components::anchors_of;
use chyp_base::NoMemory;
use chyp_graph::Graph;
use std::marker::Model;

/// A graph with its connected components (Berge, Graphs and Hypergraphs), each known by what it begins
/// with: those that have edges come first, in the order of their first edges, and then the bare wires,
/// in their order.
#[derive(Debug, Drop)]
pub struct Pattern {
    graph: Graph,
    anchors: Vec<Anchor>,
}

impl Model for Pattern {
    ghost use Rattle.chyp_pattern.specs.Pattern.{IsPattern, Parts};

    ghost Value = { Parts };

    ghost view = { λ p. record { graph = p.graph; anchors = p.anchors.items } };

    ghost invariant = { λ p. IsPattern (record { graph = p.graph; anchors = p.anchors.items }) };
}

impl Pattern {
    /// The graph with its components, in time and memory in proportion to it. It is dropped where
    /// there is no memory.
    ///
    /// # Errors
    ///
    /// `NoMemory` where the components can't be kept.
    pub fn of(graph: Graph) -> Result<Pattern, NoMemory>
        ensures graph { IfOk result (λ pattern. pattern.graph ≡ graph) }
        ensures anchors { IfOk result (λ pattern. AreAnchors graph pattern.anchors) }
    {
        let anchors = anchors_of(graph.allocator(), &graph)?;
        Ok(Pattern { graph, anchors })
    }

    /// The graph.
    pub fn graph(&self) -> &Graph
        ensures graph { result.now ≡ self.now.graph }
        ensures anchors { AreAnchors self.now.graph self.now.anchors }
    {
        &self.graph
    }

    /// The number of components.
    pub fn component_count(&self) -> u32
        ensures { result ≡ length self.now.anchors }
    {
        self.anchors.len() as u32
    }

    /// What the component begins with.
    pub fn anchor(&self, k: u32) -> Anchor
        requires { k < length self.now.anchors }
        ensures { slice_get self.now.anchors k ≡ Some result }
    {
        self.anchors[k as usize]
    }
}
