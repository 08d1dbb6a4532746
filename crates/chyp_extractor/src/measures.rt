// How big terms are.
ghost use Rattle.std.specs.Prelude.{◌≡◌, ℕ, ◌<◌, ◌≤◌, ◌^◌, All, List, length, sum_by};
ghost use Rattle.chyp_term.specs.Halving.{halved_in};
ghost use Rattle.chyp_term.specs.Perm.{permuted};
ghost use Rattle.chyp_extract.specs.Measuring.{of_edge, of_layer, of_wires};
ghost use Rattle.chyp_extractor.specs.Measures.{IsHalvedDepth, both, capped, kept};

use chyp_graph::{EdgeId, Graph};

/// The measures of a term, as the calls of `chyp_term` give them: each 2^64 - 1 where it is greater.
#[derive(Clone, Copy, Debug, PartialEq, Eq)]
pub struct Measures {
    /// The size: one for each generator and each of its ports, for each permutation and each of its
    /// places, and for each composition and tensor.
    pub size: u64,
    /// The depth: how many terms stand in one another on the longest way down.
    pub depth: u64,
    /// The number of generators.
    pub gens: u64,
}

impl Measures {
    /// Those of a permutation of so many wires.
    pub(crate) fn of_wires(count: u32) -> Measures
        ensures { result ≡ kept (of_wires count) }
    {
        Measures {
            size: u64::from(count) + 1,
            depth: 1,
            gens: 0,
        }
    }

    /// Those of a composition or a tensor of terms with these measures.
    pub(crate) fn joined(self, other: Measures) -> Measures
        ensures { result ≡ both «self» other }
    {
        Measures {
            size: self.size.saturating_add(other.size).saturating_add(1),
            depth: self.depth.max(other.depth).saturating_add(1),
            gens: self.gens.saturating_add(other.gens),
        }
    }

    /// Those of a layer of these edges and of so many wires.
    pub(crate) fn of_layer(graph: &Graph, edges: &[EdgeId], wires: u32) -> Measures
        requires within { All (λ k. k < length graph.now.edges) edges.now }
        requires few { length edges.now < 2 ^ 31 }
        ensures { (others : List ℕ) → length others ≡ wires
            → result ≡ kept (of_layer (permuted graph.now.edges edges.now) others) }
    {
        let count = edges.len() as u64 + u64::from(wires);
        if count == 0 {
            return Measures::of_wires(0);
        }
        Measures {
            size: size_of_edges(graph, edges)
                .saturating_add(2 * u64::from(wires))
                .saturating_add(count - 1),
            depth: halved_depth(count),
            gens: edges.len() as u64,
        }
    }
}

/// The sizes of the generators of these edges together.
fn size_of_edges(graph: &Graph, edges: &[EdgeId]) -> u64
    requires { All (λ k. k < length graph.now.edges) edges.now }
    ensures { result ≡ capped (sum_by (λ e. (of_edge e).size) (permuted graph.now.edges edges.now)) }
{
    let mut size: u64 = 0;
    for k in edges {
        let edge = graph.edge(*k);
        size = size
            .saturating_add(edge.sources.len() as u64)
            .saturating_add(edge.targets.len() as u64)
            .saturating_add(1);
    }
    size
}

/// The depth of so many leaves that are joined by halves.
fn halved_depth(count: u64) -> u64
    requires { 1 ≤ count }
    ensures { IsHalvedDepth count result }
{
    if count == 1 {
        return 1;
    }
    u64::from((count - 1).ilog2()) + 2
}

/// The measures of a row of terms with these measures, which are joined by halves. The recursion goes as
/// deep as the logarithm of their number.
pub(crate) fn halved(parts: &[Measures]) -> Measures
    ensures { result ≡ halved_in (kept (of_wires 0)) both parts.now }
{
    match parts {
        [] => Measures::of_wires(0),
        [part] => *part,
        _ => {
            let half = parts.len() / 2;
            let first = halved(&parts[..half]);
            let rest = halved(&parts[half..]);
            first.joined(rest)
        }
    }
}
