// A main text with its modules, and which of them reach which.
ghost use Rattle.std.specs.Prelude.{◌≡◌, ◌<◌, ◌≤◌, [], ◌∷◌, None, IfOk, IfSome, IfNone, length};
ghost use Rattle.std.specs.List.{filter_map};
ghost use Rattle.chyp_lex.specs.Tokens.{text_limit};
ghost use Rattle.chyp_load.specs.Loading.{AreShort};
ghost use Rattle.chyp_reach.specs.Relation.{IsSquare, count_from, relates};
ghost use Rattle.chyp_check.specs.Project.{IsMapped, library_in, name_at, node_at, node_of, text_at};

use crate::imports::reach;
use crate::node::{Node, nodes, place_of};
use chyp_base::{Name, NoMemory};
use chyp_load::{MainText, ReadModules};
use chyp_reach::Relation;
use std::alloc::Global;
use std::marker::Model;

/// A main text with its modules that are there, each by a number, the main text by 0, and which of them reach
/// which. Contracts see it as a record of `specs/Project.antt`.
#[derive(Drop)]
pub(crate) struct Project<'a> {
    nodes: Vec<Node<'a>>,
    reach: Relation,
}

impl<'a> Model for Project<'a> {
    ghost use Rattle.chyp_check.specs.Project.{IsMapped, Project as Shown};

    ghost Value = { Shown };

    ghost view = { λ p. record { nodes = p.nodes.items; rows = p.reach } };

    ghost invariant = { λ p. IsMapped (record { nodes = p.nodes.items; rows = p.reach }) };
}

impl<'a> Project<'a> {
    /// A main text with its modules.
    pub(crate) fn new(
        alloc: Global,
        home: &'a Name,
        main: &'a MainText<'a>,
        modules: &'a ReadModules,
    ) -> Result<Project<'a>, NoMemory>
        requires home { home.now ≡ [] }
        requires within { AreShort modules.now }
        ensures { IfOk result (λ project. project.nodes ≡ ([], main.now.text) ∷ filter_map node_of modules.now) }
    {
        modules.distinct();
        main.statements().cut();
        let nodes = nodes(alloc, home, main, modules)?;
        let reach = reach(alloc, &nodes)?;
        Ok(Project { nodes, reach })
    }

    /// How many texts there are.
    pub(crate) fn count(&self) -> usize
        ensures { result ≡ length self.now.nodes }
    {
        self.nodes.len()
    }

    /// The text of this number, with its name.
    pub(crate) fn node(&self, number: usize) -> &Node<'a>
        requires { number < length self.now.nodes }
        ensures { result.now ≡ node_at self.now.nodes number }
    {
        &self.nodes[number]
    }

    /// The text of this number. It is short.
    pub(crate) fn text(&self, number: usize) -> &'a [u8]
        requires { number < length self.now.nodes }
        ensures text { result.now ≡ text_at self.now.nodes number }
        ensures short { length result.now ≤ text_limit }
    {
        self.nodes[number].text()
    }

    /// The number of the module of this name.
    pub(crate) fn place_of(&self, name: &Name) -> Option<usize>
        ensures some { IfSome result (λ place. place < length self.now.nodes) }
        ensures named { IfSome result (λ place. name_at self.now.nodes place ≡ name.now) }
        ensures none { IfNone result (library_in self.now.nodes name.now ≡ None) }
    {
        place_of(&self.nodes, name)
    }

    /// Whether the one text reaches the other.
    pub(crate) fn reaches(&self, from: usize, to: usize) -> bool
        requires from { from < length self.now.nodes }
        requires to { to < length self.now.nodes }
        ensures { result ≡ relates self.now.rows from to }
    {
        self.reach.has(from, to)
    }

    /// How many texts this one reaches.
    pub(crate) fn size(&self, number: usize) -> usize
        requires { number < length self.now.nodes }
        ensures { result ≡ count_from self.now.rows number }
    {
        self.reach.count(number)
    }

    /// There is a row for each text, with a mark for each text.
    pub(crate) fn square(&self)
        ensures { IsSquare self.now.rows }
    {
        self.reach.square();
    }

    /// Its names are distinct, its texts short, and it is said rightly which reach which.
    pub(crate) fn mapped(&self)
        ensures { IsMapped self.now }
    {
        let _ = &self.nodes;
    }
}
