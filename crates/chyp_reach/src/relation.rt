// Relations on the numbers below a count.
ghost use Rattle.std.specs.Prelude.{◌≡◌, ◌<◌, ◌||◌, ◌&&◌, ◌==◌, ◌↔◌, ℕ, true, false, length, slice_index_or, IfOk, OnOk};
ghost use Rattle.chyp_reach.specs.Relation.{IsSquare, Leads, count_from, relates};

use crate::row::Row;
use chyp_base::NoMemory;
use std::alloc::Global;
use std::marker::Model;

/// Which of the numbers below a count lead to which. Contracts see it as a list of rows, of
/// `specs/Relation.antt`.
#[derive(Debug, Drop)]
pub struct Relation {
    rows: Vec<Row>,
}

impl Model for Relation {
    ghost use Rattle.std.specs.Prelude.{Bool, List};
    ghost use Rattle.chyp_reach.specs.Relation.{IsSquare};

    ghost Value = { List (List Bool) };

    ghost view = { λ r. r.rows.items };

    ghost invariant = { λ r. IsSquare r.rows.items };
}

// Empty rows, as many as the count.
fn empty_rows(alloc: Global, count: usize) -> Result<Vec<Row>, NoMemory>
    ensures count { IfOk result (λ rows. length rows.items ≡ count) }
    ensures square { IfOk result (λ rows. IsSquare rows.items) }
    ensures none { IfOk result (λ rows. (i j : ℕ) → relates rows.items i j ≡ false) }
{
    let mut rows = Vec::with_capacity(alloc, count)?;
    for _ in 0..count {
        rows.push(Row::new(alloc, count)?)?;
    }
    Ok(rows)
}

// Adds what the pivot leads to at all numbers that lead to it.
fn pass_through(rows: &mut [Row], pivot: usize, beyond: &Row)
    requires square { IsSquare rows.old }
    requires within { pivot < length rows.old }
    requires long { length beyond.now ≡ length rows.old }
    ensures square { IsSquare rows.new }
    ensures count { length rows.new ≡ length rows.old }
    ensures more { (i j : ℕ) → relates rows.new i j
        ≡ (relates rows.old i j || (relates rows.old i pivot && slice_index_or beyond.now j false)) }
{
    for at in 0..rows.len() {
        if rows[at].has(pivot) {
            rows[at].join(beyond);
        }
    }
}

// Makes the rows say where chains lead.
fn close_rows(alloc: Global, rows: &mut [Row]) -> Result<(), NoMemory>
    requires square { IsSquare rows.old }
    ensures square { IsSquare rows.new }
    ensures count { length rows.new ≡ length rows.old }
    ensures chains { OnOk result ((i j : ℕ) → relates rows.new i j ≡ true ↔ Leads rows.old i j) }
{
    for pivot in 0..rows.len() {
        let beyond = rows[pivot].copy(alloc)?;
        pass_through(rows, pivot, &beyond);
    }
    Ok(())
}

impl Relation {
    /// No number leads to another.
    ///
    /// # Errors
    ///
    /// `NoMemory` where the rows can't be kept.
    pub fn new(alloc: Global, count: usize) -> Result<Relation, NoMemory>
        ensures count { IfOk result (λ relation. length relation ≡ count) }
        ensures none { IfOk result (λ relation. (i j : ℕ) → relates relation i j ≡ false) }
    {
        let rows = empty_rows(alloc, count)?;
        Ok(Relation { rows })
    }

    /// Whether the one number leads to the other.
    pub fn has(&self, from: usize, to: usize) -> bool
        requires from { from < length self.now }
        requires to { to < length self.now }
        ensures { result ≡ relates self.now from to }
    {
        self.rows[from].has(to)
    }

    /// The one number leads to the other from now on.
    pub fn add(&mut self, from: usize, to: usize)
        requires from { from < length self.old }
        requires to { to < length self.old }
        ensures count { length self.new ≡ length self.old }
        ensures has { (i j : ℕ) → relates self.new i j ≡ (relates self.old i j || (i == from && j == to)) }
    {
        self.rows[from].add(to);
    }

    /// Each row has a mark for each row.
    pub fn square(&self)
        ensures { IsSquare self.now }
    {
        let _ = &self.rows;
    }

    /// Makes numbers lead wherever chains lead, in time of the count to the third.
    ///
    /// # Errors
    ///
    /// `NoMemory` where a row can't be copied; then some chains may be missing.
    pub fn close(&mut self, alloc: Global) -> Result<(), NoMemory>
        ensures count { length self.new ≡ length self.old }
        ensures chains { OnOk result ((i j : ℕ) → relates self.new i j ≡ true ↔ Leads self.old i j) }
    {
        close_rows(alloc, &mut self.rows)
    }

    /// To how many numbers this one leads.
    pub fn count(&self, from: usize) -> usize
        requires { from < length self.now }
        ensures { result ≡ count_from self.now from }
    {
        self.rows[from].count()
    }
}
