// Sets of numbers below a count.
ghost use Rattle.std.specs.Prelude.{◌≡◌, ◌<◌, ◌||◌, ◌==◌, ℕ, Bool, true, false, length, slice_index_or, count_by, IfOk};

use chyp_base::NoMemory;
use std::alloc::Global;
use std::marker::Model;

/// A set of numbers below a count, seen by contracts as a list that says of each number whether it is in the set.
#[derive(Debug, Drop)]
pub(crate) struct Row {
    marks: Vec<bool>,
}

impl Model for Row {
    ghost use Rattle.std.specs.Prelude.{Bool, List};

    ghost Value = { List Bool };

    ghost view = { λ r. r.marks.items };
}

// Marks all that are marked in the other list.
fn mark_all(marks: &mut [bool], more: &[bool])
    requires { length more.now ≡ length marks.old }
    ensures either { (n : ℕ) → slice_index_or marks.new n false ≡ (slice_index_or marks.old n false || slice_index_or more.now n false) }
{
    for at in 0..marks.len() {
        if more[at] {
            marks[at] = true;
        }
    }
}

impl Row {
    /// The empty set of numbers below a count.
    pub(crate) fn new(alloc: Global, count: usize) -> Result<Row, NoMemory>
        ensures count { IfOk result (λ row. length row ≡ count) }
        ensures none { IfOk result (λ row. (n : ℕ) → slice_index_or row n false ≡ false) }
    {
        let marks = vec![in alloc; false; count]?;
        Ok(Row { marks })
    }

    /// The same set.
    pub(crate) fn copy(&self, alloc: Global) -> Result<Row, NoMemory>
        ensures { IfOk result (λ row. row ≡ self.now) }
    {
        let marks = Vec::from_slice(alloc, &self.marks)?;
        Ok(Row { marks })
    }

    /// Whether the number is in the set.
    pub(crate) fn has(&self, number: usize) -> bool
        requires { number < length self.now }
        ensures { result ≡ slice_index_or self.now number false }
    {
        self.marks[number]
    }

    /// Adds a number.
    pub(crate) fn add(&mut self, number: usize)
        requires { number < length self.old }
        ensures count { length self.new ≡ length self.old }
        ensures has { (n : ℕ) → slice_index_or self.new n false ≡ (slice_index_or self.old n false || n == number) }
    {
        self.marks[number] = true;
    }

    /// Adds all numbers of another set.
    pub(crate) fn join(&mut self, other: &Row)
        requires { length other.now ≡ length self.old }
        ensures count { length self.new ≡ length self.old }
        ensures either { (n : ℕ) → slice_index_or self.new n false ≡ (slice_index_or self.old n false || slice_index_or other.now n false) }
    {
        mark_all(&mut self.marks, &other.marks);
    }

    /// How many numbers are in the set.
    pub(crate) fn count(&self) -> usize
        ensures { result ≡ count_by (λ (mark : Bool). mark) self.now }
    {
        self.marks.iter().filter(|mark| **mark).count()
    }
}
