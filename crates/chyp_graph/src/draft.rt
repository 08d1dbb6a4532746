// Graphs while they are drawn, from terms.
ghost use Rattle.std.specs.Prelude.{◌≡◌, ℕ, ◌<◌, ◌≤◌, ◌+◌, ◌^◌, [], ◌∷◌, ◌++◌, IfOk, length, slice_index};
ghost use Rattle.chyp_term.specs.Morphism.{IsTyped, dom};
ghost use Rattle.chyp_term.specs.Perm.{count_from, permuted};
ghost use Rattle.chyp_term.specs.Measure.{size_of};
ghost use Rattle.chyp_term.specs.Term.{morphism_of};
ghost use Rattle.chyp_graph.specs.Composition.{beside_graph};
ghost use Rattle.chyp_graph.specs.Draft.{IsFollowed, drawn};
ghost use Rattle.chyp_graph.specs.GraphOf.{graph_of};

use crate::{EdgePart, PortList, WireId};
use chyp_base::{Name, NoMemory, Sort};
use chyp_term::Term;
use std::alloc::Global;
use std::mem;

/// A graph while it is drawn.
#[derive(Drop)]
pub(crate) struct Draft {
    pub(crate) wires: Vec<Sort>,
    pub(crate) edges: Vec<EdgePart>,
    pub(crate) inputs: Vec<WireId>,
    pub(crate) outputs: Vec<WireId>,
}

impl Draft {
    /// The draft without wires.
    pub(crate) fn new(alloc: Global) -> Draft
        ensures { drawn result ≡ record { wires = []; edges = []; inputs = []; outputs = [] } }
    {
        Draft {
            wires: Vec::new(alloc),
            edges: Vec::new(alloc),
            inputs: Vec::new(alloc),
            outputs: Vec::new(alloc),
        }
    }

    /// Draws a term beside what is drawn. The recursion goes as deep as the term.
    pub(crate) fn place(&mut self, term: &Term) -> Result<(), NoMemory>
        requires typed { IsTyped (morphism_of term.now) }
        requires room { length self.old.wires.items + size_of (morphism_of term.now) < 2 ^ 31 }
        ensures { IfOk result (λ _. drawn self.new ≡ beside_graph (drawn self.old) (graph_of (morphism_of term.now))) }
    {
        match term {
            Term::Gen { name, dom, cod } => {
                let first = self.inputs.len();
                add_wires(&mut self.wires, &mut self.inputs, dom.as_slice())?;
                let alloc = *self.inputs.allocator();
                let sources = PortList::from_slice(alloc, &self.inputs[first..])?;
                self.add_edge(name, sources, cod.as_slice())
            }
            Term::Perm { sorts, perm } => {
                let first = self.inputs.len();
                add_wires(&mut self.wires, &mut self.inputs, sorts.as_slice())?;
                push_at(&mut self.outputs, &self.inputs[first..], perm.places())
            }
            Term::Seq(first, second) => {
                let alloc = *self.outputs.allocator();
                let before = mem::replace(&mut self.outputs, Vec::new(alloc));
                self.place(first)?;
                let middle = mem::replace(&mut self.outputs, before);
                self.follow(second, &middle, 0)?;
                Ok(())
            }
            Term::Par(first, second) => {
                self.place(first)?;
                self.place(second)
            }
        }
    }

    /// Draws a term behind live wires, of which it takes as inputs those from `at` on, and gives the
    /// place after the last that it takes. The recursion goes as deep as the term.
    fn follow(&mut self, term: &Term, live: &[WireId], at: usize) -> Result<usize, NoMemory>
        requires typed { IsTyped (morphism_of term.now) }
        requires room { length self.old.wires.items + size_of (morphism_of term.now) < 2 ^ 31 }
        requires live { at + length (dom (morphism_of term.now)) ≤ length live.now }
        ensures end { IfOk result (λ end. end ≡ at + length (dom (morphism_of term.now))) }
        ensures drawn { IfOk result (λ _. IsFollowed (drawn self.old) live.now at (morphism_of term.now) (drawn self.new)) }
    {
        match term {
            Term::Gen { name, dom, cod } => {
                let end = at + dom.as_slice().len();
                let alloc = *self.outputs.allocator();
                let sources = PortList::from_slice(alloc, &live[at..end])?;
                self.add_edge(name, sources, cod.as_slice())?;
                Ok(end)
            }
            Term::Perm { sorts, perm } => {
                let end = at + sorts.as_slice().len();
                push_at(&mut self.outputs, &live[at..end], perm.places())?;
                Ok(end)
            }
            Term::Seq(first, second) => {
                let alloc = *self.outputs.allocator();
                let before = mem::replace(&mut self.outputs, Vec::new(alloc));
                let end = self.follow(first, live, at)?;
                let middle = mem::replace(&mut self.outputs, before);
                self.follow(second, &middle, 0)?;
                Ok(end)
            }
            Term::Par(first, second) => {
                let end = self.follow(first, live, at)?;
                self.follow(second, live, end)
            }
        }
    }

    /// Adds an edge with new target wires, which are outputs.
    fn add_edge(&mut self, name: &Name, sources: PortList, targets: &[Sort]) -> Result<(), NoMemory>
        requires { length self.old.wires.items + length targets.now < 2 ^ 31 }
        ensures { IfOk result (λ _. let new = count_from (length self.old.wires.items) (length targets.now) in drawn self.new ≡ record {
          wires = self.old.wires.items ++ targets.now;
          edges = self.old.edges.items ++ record { name = name.now; sources = sources; targets = new } ∷ [];
          inputs = self.old.inputs.items;
          outputs = self.old.outputs.items ++ new;
        }) }
    {
        let first = self.outputs.len();
        add_wires(&mut self.wires, &mut self.outputs, targets)?;
        let alloc = *self.outputs.allocator();
        self.edges.push(EdgePart {
            name: name.share()?,
            sources,
            targets: PortList::from_slice(alloc, &self.outputs[first..])?,
        })?;
        Ok(())
    }
}

/// Adds wires of these sorts, and their numbers to a list.
fn add_wires(
    wires: &mut Vec<Sort>,
    numbers: &mut Vec<WireId>,
    sorts: &[Sort],
) -> Result<(), NoMemory>
    requires { length wires.old.items + length sorts.now < 2 ^ 31 }
    ensures numbers { IfOk result (λ _. numbers.new.items ≡ numbers.old.items ++ count_from (length wires.old.items) (length sorts.now)) }
    ensures wires { IfOk result (λ _. wires.new.items ≡ wires.old.items ++ sorts.now) }
{
    for sort in sorts {
        numbers.push(WireId(wires.len() as u32))?;
        wires.push(sort.share()?)?;
    }
    Ok(())
}

/// Adds wires of these sorts, and gives their numbers.
pub(crate) fn new_wires(wires: &mut Vec<Sort>, sorts: &[Sort]) -> Result<Vec<WireId>, NoMemory>
    requires { length wires.old.items + length sorts.now < 2 ^ 31 }
    ensures numbers { IfOk result (λ numbers. numbers.items ≡ count_from (length wires.old.items) (length sorts.now)) }
    ensures wires { IfOk result (λ _. wires.new.items ≡ wires.old.items ++ sorts.now) }
{
    let mut numbers = Vec::with_capacity(*wires.allocator(), sorts.len())?;
    add_wires(wires, &mut numbers, sorts)?;
    Ok(numbers)
}

/// Adds to a list the live wires at these places.
fn push_at(list: &mut Vec<WireId>, live: &[WireId], places: &[u32]) -> Result<(), NoMemory>
    requires { (j : ℕ) → j < length places.now → slice_index places.now j < length live.now }
    ensures { IfOk result (λ _. list.new.items ≡ list.old.items ++ permuted live.now places.now) }
{
    for place in places {
        list.push(live[*place as usize])?;
    }
    Ok(())
}
