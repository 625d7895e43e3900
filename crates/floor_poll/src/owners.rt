//! Which loop has which conference.

ghost use Rattle.std.specs.Prelude.{◌≡◌, ◌<◌, ◌+◌, ◌%◌, ◌^◌, ℕ, IfOk, IsPermutation, IsSorted, false, nat_eq, None, OnErr, OnOk, Some};
ghost use Rattle.std.specs.Ordering.{nat_cmp};
ghost use Rattle.indexmap.specs.IndexMap.{get, index_map_len, index_of_by, keys};

use indexmap::IndexMap;
use std::alloc::{AllocError, Global};

/// The loop of each conference that was ever opened, for ever.
///
/// Conferences are given out in turn, so that no loop has two more of them than another.
#[derive(Drop)]
pub struct Owners {
    places: IndexMap<u32, usize>,
    loops: usize,
}

impl Owners {
    /// No conference, over so many loops. Takes no memory.
    pub fn new(alloc: Global, loops: usize) -> Owners
        ensures none { (c : ℕ) → get nat_eq result.places c ≡ None }
        ensures loops { result.loops ≡ loops }
    {
        Owners {
            places: IndexMap::new(alloc),
            loops,
        }
    }

    /// The place of the loop that has a conference, if it was ever opened.
    pub fn get(&self, conference: u32) -> Option<usize>
        ensures value { result ≡ get nat_eq self.now.places conference }
    {
        self.places.get(&conference).copied()
    }

    /// The place of a conference in the order of opening.
    pub fn order(&self, conference: u32) -> Option<usize>
        ensures value { result ≡ index_of_by (nat_eq conference) self.now.places }
    {
        self.places.get_index_of(&conference)
    }

    /// The conferences that were ever opened, in ascending order.
    pub fn numbers(&self, alloc: Global) -> Result<Vec<u32>, AllocError>
        ensures found { IfOk result (λ numbers. IsPermutation (keys self.now.places) numbers.items) }
        ensures ascending { IfOk result (λ numbers. IsSorted nat_cmp numbers.items) }
    {
        let mut numbers: Vec<u32> = self.places.keys().copied().collect(alloc)?;
        numbers.sort()?;
        Ok(numbers)
    }

    /// The loop that the next conference is given to behind so many that are opened: the first of those that have the
    /// fewest then.
    pub fn next(&self, opening: usize) -> usize
        ensures value { 0 < self.now.loops → index_map_len self.now.places + opening < 2 ^ 64
            → result ≡ (index_map_len self.now.places + opening) % self.now.loops }
        ensures within { 0 < self.now.loops → result < self.now.loops }
    {
        let count = self.places.len().saturating_add(opening);
        count.checked_rem(self.loops).unwrap_or(0)
    }

    /// Takes room for one conference more.
    pub fn reserve(&mut self) -> Result<(), AllocError>
        ensures places { (c : ℕ) → get nat_eq self.new.places c ≡ get nat_eq self.old.places c }
        ensures loops { self.new.loops ≡ self.old.loops }
    {
        self.places.reserve(1)
    }

    /// Takes it that a conference was opened in the loop at this place. With room for it no memory is taken; after
    /// an error nothing has changed.
    pub fn add(&mut self, conference: u32, place: usize) -> Result<(), AllocError>
        ensures here { OnOk result (get nat_eq self.new.places conference ≡ Some place) }
        ensures others { (c : ℕ) → nat_eq conference c ≡ false
            → get nat_eq self.new.places c ≡ get nat_eq self.old.places c }
        ensures left { OnErr result ((c : ℕ)
            → get nat_eq self.new.places c ≡ get nat_eq self.old.places c) }
        ensures loops { self.new.loops ≡ self.old.loops }
    {
        match self.places.insert(conference, place) {
            Ok(_) => Ok(()),
            Err(_) => Err(AllocError),
        }
    }
}
