// The columns of the boxes.
ghost use Rattle.std.specs.Prelude.{◌≡◌, ◌+◌, ◌*◌, ◌<◌, ◌≤◌, ◌^◌, All, IfOk, length, sum_by};
ghost use Rattle.chyp_layout.specs.Columns.{bend_count, columns_of, end_column, greatest, point_count};
ghost use Rattle.chyp_layout.specs.Ends.{IsEnd};

use crate::bounds::is_bounded;
use crate::ends::Ends;
use chyp_base::NoMemory;
use chyp_graph::Graph;
use chyp_picture::End;
use std::marker::Model;

/// The columns of the boxes, in edge order.
#[derive(Debug, Drop)]
pub(crate) struct Columns {
    of_boxes: Vec<u32>,
    last: u32,
}

impl Model for Columns {
    ghost use Rattle.std.specs.Prelude.{List, ℕ};
    ghost use Rattle.chyp_layout.specs.Columns.{AreKept};

    ghost Value = { List ℕ };

    ghost view = { λ columns. columns.of_boxes.items };

    ghost invariant = { λ columns. AreKept columns.of_boxes.items columns.last };
}

impl Columns {
    /// The columns of a graph.
    pub(crate) fn of(graph: &Graph) -> Result<Columns, NoMemory>
        ensures columns { IfOk result (λ columns. columns ≡ columns_of graph.now) }
        ensures low { IfOk result (λ columns. greatest columns < 2 ^ 31) }
    {
        is_bounded(graph);
        let of_boxes = graph.rounds()?;
        let last = greatest(&of_boxes);
        Ok(Columns { of_boxes, last })
    }

    /// The columns, in edge order.
    pub(crate) fn as_slice(&self) -> &[u32]
        ensures columns { result.now ≡ self.now }
        ensures few { length self.now < 2 ^ 31 }
        ensures each { All (λ n. (0 < n) × (n ≤ greatest self.now)) self.now }
    {
        &self.of_boxes
    }

    /// The last column with boxes.
    pub(crate) fn last(&self) -> u32
        ensures last { result ≡ greatest self.now }
        ensures few { result < 2 ^ 31 }
    {
        self.last
    }

    /// The column in which an end stands.
    pub(crate) fn of_end(&self, end: End) -> u32
        requires { IsEnd (length self.now) end }
        ensures column { result ≡ end_column self.now end }
        ensures few { result ≤ 2 ^ 31 }
        ensures within { result ≤ greatest self.now + 1 }
    {
        match end {
            End::Input(_) => 0,
            End::Output(_) => self.last + 1,
            End::Port { box_index, .. } => self.of_boxes[box_index as usize],
        }
    }

    /// How many boxes and bends there are, where the wires have these ends.
    pub(crate) fn point_count(&self, ends: &[Ends]) -> u64
        requires ends { All (λ x. IsEnd (length self.now) x.from × IsEnd (length self.now) x.to) ends.now }
        requires few { length ends.now < 2 ^ 31 }
        ensures { result ≡ point_count self.now ends.now }
    {
        let bends = bend_counts(self, ends);
        self.of_boxes.len() as u64 + bends
    }
}

/// The number of bends of wires with these ends.
fn bend_counts(columns: &Columns, ends: &[Ends]) -> u64
    requires ends { All (λ x. IsEnd (length columns.now) x.from × IsEnd (length columns.now) x.to) ends.now }
    requires few { length ends.now < 2 ^ 31 }
    ensures bends { result ≡ sum_by (bend_count columns.now) ends.now }
    ensures few { result ≤ length ends.now * 2 ^ 31 }
{
    let mut bends: u64 = 0;
    for x in ends {
        let from = columns.of_end(x.from);
        let to = columns.of_end(x.to);
        bends += u64::from(to.saturating_sub(from + 1));
    }
    bends
}

/// The greatest of the numbers, 0 where there are none.
fn greatest(numbers: &[u32]) -> u32
    ensures { result ≡ greatest numbers.now }
{
    let mut greatest = 0;
    for n in numbers {
        greatest = greatest.max(*n);
    }
    greatest
}
