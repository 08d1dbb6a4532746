// Lists of places, which may be no permutation.
ghost use Rattle.std.specs.Prelude.{◌≡◌, ℕ, ◌<◌, ◌≤◌, ◌+◌, ◌^◌, ◌%◌, ◌↔◌, IsTrue, All, length, slice_index};
ghost use Rattle.chyp_term.specs.Perm.{IsPermutation};

use std::alloc::Global;
use std::marker::Model;

/// A list of places of wires, in any order and number.
#[derive(Debug, Drop)]
pub struct Places {
    items: Vec<u32>,
}

impl Model for Places {
    ghost use Rattle.std.specs.Prelude.{List, ℕ};

    ghost Value = { List ℕ };

    ghost view = { λ p. p.items.items };
}

impl Places {
    /// The list of these places. It takes no memory.
    pub fn from_vec(places: Vec<u32>) -> Places
        ensures { result ≡ places.items }
    {
        Places { items: places }
    }

    /// The places, in order.
    pub fn as_slice(&self) -> &[u32]
        ensures { result.now ≡ self.now }
    {
        &self.items
    }

    /// Gives the places back. It takes no memory.
    pub fn into_vec(self) -> Vec<u32>
        ensures { result.items ≡ self }
    {
        self.items
    }

    /// The allocator that the list was made with.
    pub(crate) fn allocator(&self) -> Global {
        *self.items.allocator()
    }

    /// Whether the places are a permutation of the numbers below their count. It takes no memory:
    /// up to 2^31 places it marks items of the list while it looks, and takes the marks away.
    /// Longer lists take quadratic time.
    pub(crate) fn is_permutation(&mut self) -> bool
        ensures exact { IsTrue result ↔ IsPermutation (length self.old) self.old }
        ensures same { self.new ≡ self.old }
    {
        if !are_within(&self.items) {
            return false;
        }
        if self.items.len() > MARK as usize {
            return are_apart(&self.items);
        }
        are_apart_by_marks(&mut self.items)
    }
}

/// What a mark adds to a place, which is below it.
const MARK: u32 = 1 << 31;

/// Whether each place is below the count of places.
fn are_within(places: &[u32]) -> bool
    ensures { IsTrue result ↔ All (λ k. k < length places.now) places.now }
{
    places.iter().all(|&place| (place as usize) < places.len())
}

/// Whether places, each below their count, are apart.
fn are_apart(places: &[u32]) -> bool
    requires { All (λ k. k < length places.now) places.now }
    ensures { IsTrue result ↔ IsPermutation (length places.now) places.now }
{
    for i in 0..places.len() {
        if places[..i].contains(&places[i]) {
            return false;
        }
    }
    true
}

/// Whether places, each below their count, are apart. Takes linear time and no memory: it marks
/// items of the list while it looks.
fn are_apart_by_marks(places: &mut [u32]) -> bool
    requires within { All (λ k. k < length places.old) places.old }
    requires short { length places.old ≤ 2 ^ 31 }
    ensures exact { IsTrue result ↔ IsPermutation (length places.old) places.old }
    ensures same { places.new ≡ places.old }
{
    let apart = mark(places);
    unmark(places);
    apart
}

/// Whether places, each below their count, are apart. Marks the items that the places point to, up
/// to one that is marked already.
fn mark(places: &mut [u32]) -> bool
    requires within { All (λ k. k < length places.old) places.old }
    requires short { length places.old ≤ 2 ^ 31 }
    ensures exact { IsTrue result ↔ IsPermutation (length places.old) places.old }
    ensures marked { (j : ℕ) → j < length places.old
        → slice_index places.new j % 2 ^ 31 ≡ slice_index places.old j }
{
    for i in 0..places.len() {
        let place = (places[i] % MARK) as usize;
        let target = places[place];
        if target >= MARK {
            return false;
        }
        places[place] = target + MARK;
    }
    true
}

/// Takes the marks away.
fn unmark(places: &mut [u32])
    ensures { (j : ℕ) → j < length places.old
        → slice_index places.new j ≡ slice_index places.old j % 2 ^ 31 }
{
    for place in places.iter_mut() {
        *place %= MARK;
    }
}
