// Marks of the edges of a graph.
ghost use Rattle.std.specs.Prelude.{◌≡◌, ◌<◌, ◌≤◌, Bool, IfOk, Some, [], false, length, replicate, slice_get, slice_set, true};
ghost use Rattle.std.specs.Bool.{MatchBool};
ghost use Rattle.chyp_match.specs.Row.{IsJoined, Marks};

use chyp_base::NoMemory;
use chyp_graph::EdgeId;
use std::alloc::Global;
use std::marker::Model;

/// A mark for each edge of a graph, or no marks yet, but room for them.
#[derive(Debug, Drop)]
pub(crate) struct Row {
    marks: Vec<bool>,
    room: usize,
}

impl Model for Row {
    ghost use Rattle.std.specs.Prelude.{◌≤◌};
    ghost use Rattle.std.specs.Vec.{vec_capacity};
    ghost use Rattle.chyp_match.specs.Row.{Marks};

    ghost Value = { Marks };

    ghost view = { λ r. record { marks = r.marks.items; room = r.room } };

    ghost invariant = { λ r. r.room ≤ vec_capacity r.marks };
}

impl Row {
    /// No marks yet, and room for so many.
    pub(crate) fn new(alloc: Global, room: usize) -> Result<Row, NoMemory>
        ensures { IfOk result (λ row. row ≡ record { marks = []; room = room }) }
    {
        Ok(Row {
            marks: Vec::with_capacity(alloc, room)?,
            room,
        })
    }

    /// Whether it has marks.
    pub(crate) fn is_known(&self) -> bool
        ensures { MatchBool result (0 < length self.now.marks) (self.now.marks ≡ []) }
    {
        !self.marks.is_empty()
    }

    /// Puts a mark into each place that says that the edge isn't marked. It takes no memory.
    pub(crate) fn blank(&mut self)
        requires { self.old.marks ≡ [] }
        ensures { self.new ≡ record self.old { marks = replicate self.old.room false } }
    {
        for _ in 0..self.room {
            self.marks.push_reserved(false);
        }
    }

    /// Puts the marks of another row here. It takes no memory.
    pub(crate) fn copy(&mut self, other: &Row)
        requires none { self.old.marks ≡ [] }
        requires room { length other.now.marks ≤ self.old.room }
        ensures { self.new ≡ record self.old { marks = other.now.marks } }
    {
        self.marks.extend_from_slice(&other.marks).unwrap();
    }

    /// Whether the edge is marked.
    pub(crate) fn has(&self, k: EdgeId) -> bool
        requires { k < length self.now.marks }
        ensures { slice_get self.now.marks k ≡ Some result }
    {
        self.marks[k.0 as usize]
    }

    /// Marks the edge.
    pub(crate) fn mark(&mut self, k: EdgeId)
        requires { k < length self.old.marks }
        ensures { self.new ≡ record self.old { marks = slice_set self.old.marks k true } }
    {
        self.marks[k.0 as usize] = true;
    }

    /// Marks the edges that are marked in the other row.
    pub(crate) fn join(&mut self, other: &Row)
        requires { length other.now.marks ≡ length self.old.marks }
        ensures { IsJoined self.old other.now self.new }
    {
        for j in 0..self.marks.len() {
            if other.marks[j] {
                self.marks[j] = true;
            }
        }
    }
}
