// Permutations of wires.
ghost use Rattle.std.specs.Prelude.{ℕ, ◌≡◌, ◌<◌, ◌≤◌, ◌+◌, ◌-◌, ◌^◌, ◌↔◌, ◌++◌, length, slice_index, IfOk, IfSome, IsSome, OnOk};
ghost use Rattle.chyp_term.specs.Perm.{IsInverse, IsPermutation, count_from, permuted, shifted, swapped};

use crate::Places;
use chyp_base::NoMemory;
use std::alloc::{AllocError, Global};
use std::marker::Model;

/// A permutation of wires: `[p0, p1, ..]` sends wire `p0` to place 0, wire `p1` to place 1, and so
/// on. Its places are always a permutation of the numbers below their count.
#[derive(Debug, Drop)]
pub struct Perm {
    places: Places,
}

impl Model for Perm {
    ghost use Rattle.std.specs.Prelude.{List, ℕ, length};
    ghost use Rattle.chyp_term.specs.Perm.{IsPermutation};

    ghost Value = { List ℕ };

    ghost view = { λ p. p.places };

    ghost invariant = { λ p. IsPermutation (length p.places) p.places };
}

impl Perm {
    /// The permutation with these places; None exactly where they are no permutation of the numbers
    /// below their count. It takes no memory, and time in proportion to the places, up to 2^31 of
    /// them.
    pub fn new(mut places: Places) -> Option<Perm>
        ensures exact { IsSome result ↔ IsPermutation (length places) places }
        ensures value { IfSome result (λ perm. perm ≡ places) }
    {
        if places.is_permutation() {
            Some(Perm { places })
        } else {
            None
        }
    }

    /// Its places in order.
    pub fn places(&self) -> &[u32]
        ensures value { result.now ≡ self.now }
        ensures permutation { IsPermutation (length self.now) self.now }
    {
        self.places.as_slice()
    }

    /// This permutation and then the next: `[p[q0], p[q1], ..]`, as the composite of two
    /// permutations is in a PROP (Mac Lane, Categories for the Working Mathematician, XI). Both
    /// have one length.
    ///
    /// # Errors
    ///
    /// `NoMemory` where its places can't be kept.
    pub fn compose(&self, next: &Perm) -> Result<Perm, NoMemory>
        requires { length self.now ≡ length next.now }
        ensures { IfOk result (λ composed. composed ≡ permuted self.now next.now) }
    {
        let places = places_at(self.places.allocator(), self.places(), next.places())?;
        Ok(Perm {
            places: Places::from_vec(places),
        })
    }

    /// This permutation beside the other one, whose places are moved on by the length of this one:
    /// the tensor of two permutations in a PROP.
    ///
    /// # Errors
    ///
    /// `NoMemory` where its places can't be kept.
    pub fn beside(&self, other: &Perm) -> Result<Perm, NoMemory>
        requires { length self.now + length other.now < 2 ^ 32 }
        ensures { IfOk result (λ both. both ≡ self.now ++ shifted (length self.now) other.now) }
    {
        let places = places_beside(self.places.allocator(), self.places(), other.places())?;
        Ok(Perm {
            places: Places::from_vec(places),
        })
    }

    /// The inverse: the permutation that sends each wire back to where this one took it from.
    ///
    /// # Errors
    ///
    /// `NoMemory` where its places can't be kept.
    pub fn invert(&self) -> Result<Perm, NoMemory>
        ensures { IfOk result (λ inverse. IsInverse self.now inverse) }
    {
        let places = inverse_places(self.places.allocator(), self.places())?;
        Ok(Perm {
            places: Places::from_vec(places),
        })
    }

    /// The permutation that swaps a block of `m` wires with the block of `n` wires after it: the
    /// symmetry of a PROP.
    ///
    /// # Errors
    ///
    /// `NoMemory` where its places can't be kept.
    pub fn block_swap(alloc: Global, m: u32, n: u32) -> Result<Perm, NoMemory>
        requires { m + n < 2 ^ 32 }
        ensures { IfOk result (λ swap. swap ≡ swapped m n) }
    {
        let mut places = Vec::with_capacity(alloc, (m + n) as usize)?;
        push_range(&mut places, m, m + n)?;
        push_range(&mut places, 0, m)?;
        Ok(Perm {
            places: Places::from_vec(places),
        })
    }

    /// An equal permutation.
    ///
    /// # Errors
    ///
    /// `NoMemory` where its places can't be kept.
    pub fn copy(&self) -> Result<Perm, NoMemory>
        ensures { IfOk result (λ copied. copied ≡ self.now) }
    {
        let places = Vec::from_slice(self.places.allocator(), self.places())?;
        Ok(Perm {
            places: Places::from_vec(places),
        })
    }
}

/// The items of `places` at the places of `order`.
fn places_at(alloc: Global, places: &[u32], order: &[u32]) -> Result<Vec<u32>, AllocError>
    requires { (j : ℕ) → j < length order.now → slice_index order.now j < length places.now }
    ensures { IfOk result (λ taken. taken.items ≡ permuted places.now order.now) }
{
    let mut taken = Vec::with_capacity(alloc, order.len())?;
    for place in order {
        taken.push(places[*place as usize])?;
    }
    Ok(taken)
}

/// The items of `places`, and then those of `others`, each moved on by the count of `places`.
fn places_beside(alloc: Global, places: &[u32], others: &[u32]) -> Result<Vec<u32>, AllocError>
    requires short { length places.now + length others.now < 2 ^ 32 }
    requires within { (j : ℕ) → j < length others.now → slice_index others.now j < length others.now }
    ensures { IfOk result (λ both. both.items ≡ places.now ++ shifted (length places.now) others.now) }
{
    let mut both = Vec::with_capacity(alloc, places.len() + others.len())?;
    both.extend_from_slice(places)?;
    for place in others {
        both.push(places.len() as u32 + *place)?;
    }
    Ok(both)
}

/// The places of the inverse of a permutation: at each of its places the number of that place.
fn inverse_places(alloc: Global, places: &[u32]) -> Result<Vec<u32>, AllocError>
    requires { IsPermutation (length places.now) places.now }
    ensures inverse { IfOk result (λ inverse. IsInverse places.now inverse.items) }
    ensures permutation { IfOk result (λ inverse. IsPermutation (length inverse.items) inverse.items) }
{
    let mut inverse = vec![in alloc; 0; places.len()]?;
    for i in 0..places.len() {
        inverse[places[i] as usize] = i as u32;
    }
    Ok(inverse)
}

/// Appends the numbers from `start` on that are below `end`.
fn push_range(places: &mut Vec<u32>, start: u32, end: u32) -> Result<(), AllocError>
    requires { start ≤ end }
    ensures { OnOk result (places.new.items ≡ places.old.items ++ count_from start (end - start)) }
{
    for place in start..end {
        places.push(place)?;
    }
    Ok(())
}
