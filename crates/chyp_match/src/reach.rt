// Which edges of a graph lead to which, found when it is asked for.
ghost use Rattle.std.specs.Prelude.{◌≡◌, ℕ, ◌+◌, ◌<◌, ◌≤◌, All, IfOk, IfSome, Some, [], ◌∷◌, length, slice_get};
ghost use Rattle.chyp_match.specs.Reach.{AreRows, IsMakerMarked, IsMore, IsReach, IsRow, IsUnderWay, IsWalk, LeadsTo, MakersLead};
ghost use Rattle.chyp_match.specs.Row.{Marks};

use crate::row::Row;
use chyp_base::NoMemory;
use chyp_graph::{EdgeId, Graph, WireId};
use std::alloc::Global;
use std::mem;

/// Of each edge of a graph, the edges that lead to it, where they were asked for, and room for the
/// others.
#[derive(Debug, Drop)]
pub(crate) struct Reach {
    pub(crate) rows: Vec<Row>,
    /// The row that is being found.
    pub(crate) spare: Row,
    /// Edges that are marked in it, among them all of whose sources it isn't known yet what makes them.
    pub(crate) queue: Vec<EdgeId>,
}

/// A row for each of so many edges, without marks.
fn empty_rows(alloc: Global, count: usize) -> Result<Vec<Row>, NoMemory>
    ensures count { IfOk result (λ rows. length rows.items ≡ count) }
    ensures empty { IfOk result (λ rows. All (λ row. row ≡ record { marks = []; room = count }) rows.items) }
{
    let mut rows = Vec::with_capacity(alloc, count)?;
    for _ in 0..count {
        rows.push(Row::new(alloc, count)?)?;
    }
    Ok(rows)
}

impl Reach {
    /// Room for all edges of the graph: what is asked for later takes no memory.
    pub(crate) fn new(alloc: Global, graph: &Graph) -> Result<Reach, NoMemory>
        ensures { IfOk result (λ reach. IsReach graph.now reach) }
    {
        let count = graph.edge_count() as usize;
        Ok(Reach {
            rows: empty_rows(alloc, count)?,
            spare: Row::new(alloc, count)?,
            queue: Vec::with_capacity(alloc, count)?,
        })
    }

    /// The marks of an edge, which may be none.
    pub(crate) fn row(&self, k: EdgeId) -> &Row
        requires { k < length self.now.rows.items }
        ensures { slice_get self.now.rows.items k ≡ Some result.now }
    {
        &self.rows[k.0 as usize]
    }

    /// Finds the edges that lead to this one, unless they are known. It takes no memory, and time in
    /// proportion to the graph, and once more to its edges for each edge that it meets whose row is
    /// known.
    pub(crate) fn find(&mut self, graph: &Graph, k: EdgeId)
        requires reach { IsReach graph.now self.old }
        requires there { k < length graph.now.edges }
        ensures reach { IsReach graph.now self.new }
        ensures row { (row : Marks) → slice_get self.new.rows.items k ≡ Some row → IsRow graph.now k row.marks }
    {
        if self.rows[k.0 as usize].is_known() {
            return;
        }
        self.begin(graph, k);
        self.walk(graph);
        mem::swap(&mut self.spare, &mut self.rows[k.0 as usize]);
    }

    /// Marks an edge in the spare row, beside those of an edge that leads to it, where such marks are
    /// known.
    fn begin(&mut self, graph: &Graph, k: EdgeId)
        requires reach { IsReach graph.now self.old }
        requires there { k < length graph.now.edges }
        ensures under_way { IsUnderWay graph.now self.new }
        ensures rows { self.new.rows.items ≡ self.old.rows.items }
        ensures walk { IsWalk graph.now k 0 self.new.spare.marks self.new.queue.items }
    {
        match self.known_maker(graph, k) {
            Some(j) => self.spare.copy(&self.rows[j.0 as usize]),
            None => self.spare.blank(),
        }
        self.spare.mark(k);
        self.queue.clear();
        self.queue.push_reserved(k);
    }

    /// An edge that makes a source of this one, and whose row is known.
    fn known_maker(&self, graph: &Graph, k: EdgeId) -> Option<EdgeId>
        requires rows { AreRows graph.now self.now.rows.items }
        requires there { k < length graph.now.edges }
        ensures there { IfSome result (λ j. j < length graph.now.edges) }
        ensures leads { IfSome result (λ j. LeadsTo graph.now j k) }
        ensures row { IfSome result (λ j. (row : Marks) → slice_get self.now.rows.items j ≡ Some row → IsRow graph.now j row.marks) }
    {
        graph.valid();
        for w in graph.edge(k).sources {
            if let Some((j, _)) = graph.producer(*w) {
                if self.rows[j.0 as usize].is_known() {
                    return Some(j);
                }
            }
        }
        None
    }

    /// Marks all that leads to the edges in the queue.
    fn walk(&mut self, graph: &Graph)
        requires { IsUnderWay graph.now self.old }
        ensures under_way { IsUnderWay graph.now self.new }
        ensures rows { self.new.rows.items ≡ self.old.rows.items }
        ensures row { (k : ℕ) → IsWalk graph.now k 0 self.old.spare.marks self.old.queue.items → IsRow graph.now k self.new.spare.marks }
    {
        let mut next = 0;
        while next < self.queue.len() {
            self.visit(graph, next);
            next += 1;
        }
    }

    /// Marks what makes the sources of the edge at a place of the queue.
    fn visit(&mut self, graph: &Graph, at: usize)
        requires under_way { IsUnderWay graph.now self.old }
        requires there { at < length self.old.queue.items }
        ensures under_way { IsUnderWay graph.now self.new }
        ensures more { IsMore self.old self.new }
        ensures walk { (k : ℕ) → IsWalk graph.now k at self.old.spare.marks self.old.queue.items
            → IsWalk graph.now k (at + 1) self.new.spare.marks self.new.queue.items }
    {
        graph.valid();
        for w in graph.edge(self.queue[at]).sources {
            self.mark_maker(graph, *w);
        }
    }

    /// Marks the edge that makes the wire, where there is one, with all that leads to it, or puts it
    /// into the queue.
    fn mark_maker(&mut self, graph: &Graph, w: WireId)
        requires under_way { IsUnderWay graph.now self.old }
        requires there { w < length graph.now.wires }
        ensures under_way { IsUnderWay graph.now self.new }
        ensures more { IsMore self.old self.new }
        ensures maker { IsMakerMarked graph.now w self.new.spare.marks }
        ensures walk { (k next : ℕ) → MakersLead graph.now w k → IsWalk graph.now k next self.old.spare.marks self.old.queue.items
            → next ≤ length self.old.queue.items
            → IsWalk graph.now k next self.new.spare.marks self.new.queue.items }
    {
        graph.valid();
        let Some((j, _)) = graph.producer(w) else {
            return;
        };
        if self.spare.has(j) {
            return;
        }
        if self.rows[j.0 as usize].is_known() {
            self.spare.join(&self.rows[j.0 as usize]);
            return;
        }
        self.spare.mark(j);
        self.queue.push_reserved(j);
    }
}
