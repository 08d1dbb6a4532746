// All occurrences of a pattern, one by one.
ghost use Rattle.std.specs.Prelude.{◌≡◌, IfNone, IfOk, IfSome, ⊤};
ghost use Rattle.std.specs.Borrow.{follows_so, sem};
ghost use mathlib.Core.Option.{none};
ghost use Rattle.chyp_match.specs.Lending.{the_matcher};
ghost use Rattle.chyp_match.specs.Matcher.{GivesNext, HasGivenAll, Matcher, after};

use crate::Listed;
use crate::finder::{Finder, advance};
use crate::reach::Reach;
use crate::search::Search;
use chyp_base::NoMemory;
use chyp_graph::{EdgeId, EdgeIds, WireId, WireIds};
use chyp_pattern::{Occurrence, Pattern};
use std::alloc::Global;
use std::marker::Model;

/// A search for all occurrences of a pattern in a graph, seen as the pattern, the graph and the number
/// of occurrences that it has given.
#[derive(Drop)]
pub struct Occurrences<'a> {
    finder: Finder<'a>,
}

impl<'a> Model for Occurrences<'a> {
    ghost use Rattle.chyp_match.specs.Matcher.{IsFinder, Matcher, given_by};

    ghost Value = { Matcher };

    ghost view = { λ s. record { pattern = s.finder.pattern.now; graph = s.finder.graph.now; given = given_by s.finder } };

    ghost invariant = { λ s. IsFinder s.finder };
}

impl<'a> Occurrences<'a> {
    /// The search for the occurrences of the pattern in the graph, which has given none. It takes
    /// memory for the pairs of edges of the graph, and time in proportion to the graph.
    ///
    /// # Errors
    ///
    /// `NoMemory` where it can't be kept.
    pub fn new(
        alloc: Global,
        pattern: &'a Pattern,
        graph: &'a Listed<'a>,
    ) -> Result<Occurrences<'a>, NoMemory>
        ensures { IfOk result (λ occurrences. occurrences ≡ record { pattern = pattern.now; graph = graph.now; given = 0 }) }
    {
        let small = pattern.graph();
        let _ = pattern.component_count();
        let finder = Finder {
            pattern,
            graph,
            reach: Reach::new(alloc, graph.graph())?,
            search: Search::new(alloc, pattern, graph.graph())?,
            begun: false,
            found: Occurrence {
                edges: EdgeIds::from_vec(vec![in alloc; EdgeId(0); small.edge_count() as usize]?),
                wires: WireIds::from_vec(vec![in alloc; WireId(0); small.wire_count() as usize]?),
            },
        };
        Ok(Occurrences { finder })
    }

    /// The next occurrence, in lexicographic order of the images of the edges and then of the wires;
    /// None exactly after the last one, and from then on. It takes no memory. Each way to begin the
    /// components is tried once, at a cost of at most the size of the pattern; and once for each edge
    /// the edges that lead to it may be looked for.
    pub fn next(&mut self) -> Option<&Occurrence>
        ensures some { IfSome result (λ o. GivesNext self.old o.now) }
        ensures none { IfNone result (HasGivenAll self.old) }
        ensures* after { sem 𝓛 (follows_so the_matcher the_matcher self.entry.ghost_name none (λ _ _. ⊤) (λ v. v ≡ after self.old result)) }
    {
        if !advance(&mut self.finder) {
            return None;
        }
        Some(&self.finder.found)
    }
}
