//! Values by number.

ghost use Rattle.std.specs.Prelude.{◌≡◌, ◌+◌, ◌<◌, ◌≤◌, [], IfErr, IfNone, IfOk, IfSome, IsOk, None, OnErr, OnOk, Some, is_some, length, nat_eq, slice_get};
ghost use Rattle.std.specs.Borrow.{sem};
ghost use Rattle.std.specs.Option.{option_copied, option_copied_mut};
ghost use Rattle.indexmap.specs.IndexMap.{IsUnchanged, KeepsRoom, Updates, get, insert_entry, spare, swap_remove_entry};
ghost use Rattle.floor_numbered.specs.Lending.{lends_value};

use indexmap::IndexMap;
use std::alloc::{AllocError, AllocFailed, Global};
use std::hash::{BuildHasher, BuildHasherDefault, FoldHasher};
use std::marker::Model;

/// How many places there are at most: our choice.
const MAX_PLACES: usize = 1 << 24;

/// Values by number, as a map has them. Numbers that are given in turn stand at places of their own, so that a look-up
/// is two reads; where two share a place, one of them is found by its hash.
#[derive(Drop)]
pub struct Numbered<V, S: BuildHasher = BuildHasherDefault<FoldHasher>> {
    map: IndexMap<u64, V, S>,
    // Where the lower bits of a number lead: to the entry that was put there last. It may be another's, and then the
    // map finds the number.
    places: Vec<u32>,
}

impl<V, S: BuildHasher> Model for Numbered<V, S> {
    ghost use Rattle.std.specs.Coded.{coded_ℕ};
    ghost use Rattle.std.specs.Prelude.{ℕ};
    ghost use Rattle.indexmap.specs.IndexMap.{IndexMap as Entries};
    ghost use Rattle.indexmap.specs.Layout.{hash_map_code};

    ghost Value = { Entries ℕ V S };

    ghost coded = { hash_map_code coded_ℕ V.code S.code };

    ghost view = { λ t. t.map };
}

impl<V> Numbered<V> {
    /// No value. Takes no memory.
    pub fn new(alloc: Global) -> Numbered<V>
        ensures empty { result.entries ≡ [] }
    {
        Numbered {
            map: IndexMap::new(alloc),
            places: Vec::new(alloc),
        }
    }
}

impl<V, S: BuildHasher> Numbered<V, S> {
    /// The entry that stands at the place of a number, if it is the number's.
    #[inline(always)]
    fn place_of(&self, number: u64) -> Option<usize>
        ensures found { IfSome result (λ i. (v : V)
            × (slice_get self.now.entries i ≡ Some (number, v))
            × (get nat_eq self.now number ≡ Some v)) }
    {
        let at = number as usize & self.places.len().wrapping_sub(1);
        let place = *self.places.get(at)? as usize;
        let (key, _value) = self.map.get_index(place)?;
        if *key == number { Some(place) } else { None }
    }

    /// The value with this number. Takes no memory.
    #[inline(always)]
    pub fn get(&self, number: u64) -> Option<&V>
        ensures value { option_copied result ≡ get nat_eq self.now number }
    {
        match self.place_of(number) {
            Some(place) => match self.map.get_index(place) {
                Some((_key, value)) => Some(value),
                None => None,
            },
            None => self.map.get(&number),
        }
    }

    /// Whether a value has this number. Takes no memory.
    #[inline(always)]
    pub fn contains_key(&self, number: u64) -> bool
        ensures value { result ≡ is_some (get nat_eq self.now number) }
    {
        self.get(number).is_some()
    }

    /// The value with this number, to be changed. Takes no memory.
    #[inline(always)]
    pub fn get_mut(&mut self, number: u64) -> Option<&mut V>
        ensures* writes_back { sem 𝓛 (lends_value V.row S.row S.Hasher.row S.BuildHasher S.Hasher.Hasher self.entry number result) }
        ensures value { option_copied_mut result ≡ get nat_eq self.old number }
    {
        match self.place_of(number) {
            Some(place) => self.map.get_index_mut(place),
            None => self.map.get_mut(&number),
        }
    }

    /// How many values there are.
    pub fn len(&self) -> usize
        ensures len { result ≡ length self.now.entries }
        ensures small { result < 9223372036854775808 }
    {
        self.map.len()
    }

    /// Takes room for so many more values. After an error all stand there as they did.
    pub fn reserve(&mut self, additional: usize) -> Result<(), AllocError>
        ensures entries { IsUnchanged self.old self.new }
        ensures ok { OnOk result (additional ≤ spare self.new) }
        ensures succeeds { additional ≤ spare self.old → IsOk result }
        ensures room { KeepsRoom self.old self.new }
    {
        self.map.reserve(additional)
    }
}

impl<V: Drop, S: BuildHasher> Numbered<V, S> {
    /// Puts a value under a number, behind the others where none has the number, and gives the value that it had. After an
    /// error nothing has changed; there is none where there is room.
    pub fn insert(&mut self, number: u64, value: V) -> Result<Option<V>, AllocError>
        ensures old { IfOk result (λ old. old ≡ get nat_eq self.old number) }
        ensures updates { OnOk result (Updates nat_eq self.old self.new number (Some value)) }
        ensures entries { OnOk result
            (self.new.entries ≡ insert_entry nat_eq self.old.entries number value) }

        ensures err { OnErr result (IsUnchanged self.old self.new) }
        ensures absent { OnErr result (get nat_eq self.old number ≡ None) }
        ensures succeeds { 0 < spare self.old → IsOk result }
    {
        match self.map.insert_full(number, value) {
            Ok((place, old)) => {
                note(&self.map, &mut self.places, number, place);
                Ok(old)
            }
            Err(_) => Err(AllocError),
        }
    }

    /// Takes the value with this number out; the last value takes its place. Takes no memory.
    pub fn swap_remove(&mut self, number: u64) -> Option<V>
        ensures value { result ≡ get nat_eq self.old number }
        ensures updates { Updates nat_eq self.old self.new number None }
        ensures entries { self.new.entries ≡ swap_remove_entry (nat_eq number) self.old.entries }
        ensures room { KeepsRoom self.old self.new }
    {
        let (place, _key, value) = self.map.swap_remove_full(&number)?;
        match self.map.get_index(place) {
            Some((moved, _value)) => put(&mut self.places, *moved, place),
            None => {}
        }
        Some(value)
    }
}

/// Has the place of a number lead to its entry, and makes more places where there are fewer than twice as many as values. Where
/// memory is refused for them, the numbers are found by their hashes.
fn note<V, S: BuildHasher>(
    map: &IndexMap<u64, V, S>,
    places: &mut Vec<u32>,
    number: u64,
    place: usize,
) {
    let count = map.len().min(MAX_PLACES / 2);
    if count <= places.len() / 2 {
        return put(places, number, place);
    }
    let wanted = (2 * count).next_power_of_two();
    match places.reserve_exact(wanted.saturating_sub(places.len())) {
        Ok(()) => {}
        Err(_) => return put(places, number, place),
    }
    let _made = places.resize(wanted, 0);
    for at in 0..count {
        match map.get_index(at) {
            Some((key, _value)) => put(places, *key, at),
            None => {}
        }
    }
}

/// Has the place of a number lead to this entry.
fn put(places: &mut Vec<u32>, number: u64, place: usize) {
    let at = number as usize & places.len().wrapping_sub(1);
    match (places.get_mut(at), u32::try_from(place)) {
        (Some(one), Ok(place)) => *one = place,
        _ => {}
    }
}
