// What stands before each round of measuring.
ghost use Rattle.std.specs.Prelude.{◌≡◌, ℕ, ◌+◌, ◌<◌, [], ◌∷◌, ◌++◌, cond, true, false, IfOk, Some, length, map};
ghost use Rattle.chyp_extract.specs.Measuring.{of_wires};
ghost use Rattle.chyp_extractor.specs.Fronts.{is_used_within, live_at};
ghost use Rattle.chyp_extractor.specs.Measures.{kept};
ghost use Rattle.chyp_extractor.specs.Rounds.{IsByRounds};
ghost use Rattle.chyp_extractor.specs.Tally.{AreWires, IsTally, KeepsUnused, begins, first_of, measures_at, unused_in};

use crate::layer::{sources_of, targets_of};
use crate::measures::Measures;
use crate::rounds::Rounds;
use chyp_base::NoMemory;
use chyp_graph::{Graph, WireId};
use std::alloc::Global;

/// The live wires, and the measures of the parts so far.
#[derive(Drop)]
pub(crate) struct Tally {
    /// The live wires from the last to the first, among others that are used.
    pub(crate) stack: Vec<WireId>,
    /// How many wires are live.
    pub(crate) live: u32,
    /// The measures of the parts.
    pub(crate) parts: Vec<Measures>,
}

impl Tally {
    /// The inputs are live, and there is no part.
    pub(crate) fn new(alloc: Global, graph: &Graph) -> Result<Tally, NoMemory>
        ensures tally { IfOk result (λ tally. IsTally graph.now 0 tally) }
        ensures parts { IfOk result (λ tally. tally.parts.items ≡ []) }
    {
        graph.valid();
        let inputs = graph.inputs();
        let mut stack = Vec::from_slice(alloc, inputs)?;
        stack.reverse();
        Ok(Tally {
            stack,
            live: inputs.len() as u32,
            parts: Vec::new(alloc),
        })
    }

    /// Takes used wires from the top of the stack, up to one that isn't used within so many rounds.
    fn drop_used(&mut self, graph: &Graph, rounds: &Rounds, n: usize)
        requires rounds { IsByRounds graph.now rounds.now }
        requires wires { AreWires graph.now self.old.stack.items }
        ensures wires { AreWires graph.now self.new.stack.items }
        ensures top { (w : ℕ) → first_of self.new.stack.items ≡ Some w → is_used_within graph.now n w ≡ false }
        ensures unused { KeepsUnused graph.now n [] self.old.stack.items self.new.stack.items }
        ensures live { self.new.live ≡ self.old.live }
        ensures parts { self.new.parts.items ≡ self.old.parts.items }
    {
        while let Some(w) = self.stack.last() {
            if !rounds.is_used(graph, n, *w) {
                return;
            }
            self.stack.pop();
        }
    }

    /// Whether a wire is the first of those that aren't used within so many rounds. Where it is, it
    /// stands at the top of the stack then.
    fn is_first(&mut self, graph: &Graph, rounds: &Rounds, n: usize, w: WireId) -> bool
        requires rounds { IsByRounds graph.now rounds.now }
        requires wires { AreWires graph.now self.old.stack.items }
        ensures exact { result ≡ begins (w ∷ []) (unused_in graph.now n self.old.stack.items) }
        ensures wires { AreWires graph.now self.new.stack.items }
        ensures top { result ≡ true → first_of self.new.stack.items ≡ Some w }
        ensures unused { KeepsUnused graph.now n [] self.old.stack.items self.new.stack.items }
        ensures live { self.new.live ≡ self.old.live }
        ensures parts { self.new.parts.items ≡ self.old.parts.items }
    {
        self.drop_used(graph, rounds, n);
        match self.stack.last() {
            Some(first) => first.0 == w.0,
            None => false,
        }
    }

    /// Whether the wires that aren't used within so many rounds begin with these. Some of these are taken
    /// from the stack.
    fn begins_with(&mut self, graph: &Graph, rounds: &Rounds, n: usize, wanted: &[WireId]) -> bool
        requires rounds { IsByRounds graph.now rounds.now }
        requires wires { AreWires graph.now self.old.stack.items }
        ensures exact { result ≡ begins wanted.now (unused_in graph.now n self.old.stack.items) }
        ensures wires { AreWires graph.now self.new.stack.items }
        ensures unused { KeepsUnused graph.now n wanted.now self.old.stack.items self.new.stack.items }
        ensures live { self.new.live ≡ self.old.live }
        ensures parts { self.new.parts.items ≡ self.old.parts.items }
    {
        for w in wanted {
            if !self.is_first(graph, rounds, n, *w) {
                return false;
            }
            self.stack.pop();
        }
        true
    }

    /// Adds the measures of the permutation of the live wires to those that are wanted first and the
    /// others, unless it is the identity.
    pub(crate) fn cross(
        &mut self,
        graph: &Graph,
        rounds: &Rounds,
        n: usize,
        wanted: &[WireId],
    ) -> Result<(), NoMemory>
        requires rounds { IsByRounds graph.now rounds.now }
        requires tally { IsTally graph.now n self.old }
        ensures wires { IfOk result (λ _. AreWires graph.now self.new.stack.items) }
        ensures unused { IfOk result (λ _. KeepsUnused graph.now n wanted.now self.old.stack.items self.new.stack.items) }
        ensures live { IfOk result (λ _. self.new.live ≡ self.old.live) }
        ensures parts { IfOk result (λ _. self.new.parts.items ≡ self.old.parts.items
            ++ cond (begins wanted.now (live_at graph.now n)) [] (kept (of_wires (length (live_at graph.now n))) ∷ [])) }
    {
        if !self.begins_with(graph, rounds, n, wanted) {
            self.parts.push(Measures::of_wires(self.live))?;
        }
        Ok(())
    }

    /// Adds the measures of the parts of the round after so many rounds.
    pub(crate) fn place(&mut self, graph: &Graph, rounds: &Rounds, n: usize) -> Result<(), NoMemory>
        requires rounds { IsByRounds graph.now rounds.now }
        requires round { n < length rounds.now.edges.items }
        requires tally { IsTally graph.now n self.old }
        ensures tally { IfOk result (λ _. IsTally graph.now (n + 1) self.new) }
        ensures parts { IfOk result (λ _. self.new.parts.items ≡ self.old.parts.items ++ map kept (measures_at graph.now n)) }
    {
        graph.valid();
        let alloc = graph.allocator();
        let edges = rounds.edges[n].as_slice();
        let sources = sources_of(alloc, graph, edges)?;
        self.cross(graph, rounds, n, &sources)?;
        self.live -= sources.len() as u32;
        self.parts
            .push(Measures::of_layer(graph, edges, self.live))?;
        let mut targets = targets_of(alloc, graph, edges)?;
        self.live += targets.len() as u32;
        targets.reverse();
        self.stack.extend_from_slice(&targets)?;
        Ok(())
    }
}
