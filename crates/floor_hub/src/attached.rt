//! The live connections of one conference, and which of them a call names.

ghost use Rattle.std.specs.Prelude.{◌≡◌, ◌≢◌, true, false, Some, ◌≤◌, ◌<◌, ◌++◌, ◌∷◌, ◌==◌, ◌&&◌, [], not, filter, IfNone, IfSome, OnErr, OnOk, length, map, option_to_list, vec_capacity, vec_len};
ghost use Rattle.std.specs.List.{list_any, slice_index_or};
ghost use Rattle.floor_machine.specs.declared.machine.Refusal.TheVariants.{Ended};
ghost use Rattle.floor_room.specs.Ledger.{closed};
ghost use Rattle.floor_room.specs.declared.refusal.RoomRefusal.TheVariants.{Refused as ByMachine};
ghost use Rattle.floor_hub.specs.Concerned.{AscendFrom, is_shut};
ghost use Rattle.floor_hub.specs.declared.attached.Live.{Live as Listed};
ghost use Rattle.floor_hub.specs.steps.Attached.{AddsNames, AreListed, IsBehind, IsIn, IsNaming, Names, cut_at, is_noted, marked, members_of, numbers_of, without};

use crate::connection::ConnNo;
use floor_room::{Refusal, Room, RoomRefusal};
use std::alloc::{AllocError, Global};
use std::marker::Model;

/// A live connection of a conference.
#[derive(Clone, Copy, Debug, PartialEq, Eq)]
pub struct Live {
    /// Its number over all conferences.
    pub number: ConnNo,
    /// The number of its member within the conference, from 1 on.
    pub n: u32,
    /// Whether its member is cut, as far as any call has seen: of a conference that is closed or broken
    /// off, how it was before.
    pub is_cut: bool,
}

/// The live connections of one conference in the order in which they came, and so by ascending number
/// and by ascending n.
#[derive(Drop)]
pub(crate) struct Attached {
    live: Vec<Live>,
}

impl Model for Attached {
    ghost use Rattle.std.specs.Prelude.{List};
    ghost use Rattle.floor_hub.specs.declared.attached.Live.{Live};
    ghost use Rattle.floor_hub.specs.steps.Attached.{AreListed};

    ghost Value = { List Live };

    ghost view = { λ a. a.live.items };

    ghost invariant = { λ a. AreListed a.live.items };
}

impl Attached {
    /// No connection.
    pub(crate) fn new(alloc: Global) -> Attached
        ensures value { result ≡ [] }
    {
        Attached {
            live: Vec::new(alloc),
        }
    }

    /// The connections that are live.
    pub(crate) fn as_slice(&self) -> &[Live]
        ensures value { result.now ≡ self.now }
        ensures listed { AreListed result.now }
    {
        self.live.as_slice()
    }

    /// How many connections are live.
    pub(crate) fn len(&self) -> usize
        ensures value { result ≡ length self.now }
    {
        self.live.len()
    }

    /// Adds a connection behind the others. After an error nothing has changed.
    pub(crate) fn add(&mut self, live: Live) -> Result<(), AllocError>
        requires { IsBehind self.old live.number live.n }
        ensures next { OnOk result (self.new ≡ self.old ++ live ∷ []) }
        ensures left { OnErr result (self.new ≡ self.old) }
    {
        self.live.push(live)?;
        Ok(())
    }

    /// Takes a connection out.
    pub(crate) fn remove(&mut self, number: ConnNo)
        ensures next { self.new ≡ without number self.old }
    {
        self.live.retain(|live| live.number != number);
    }

    /// Names all connections.
    pub(crate) fn name_all(&self, numbers: &mut Vec<ConnNo>)
        requires none { numbers.old.items ≡ [] }
        requires room { length self.now ≤ vec_capacity numbers.old }
        ensures named { numbers.new.items ≡ numbers_of self.now }
        ensures ascending { AscendFrom 0 numbers.new.items }
        ensures capacity { vec_capacity numbers.old ≤ vec_capacity numbers.new }
    {
        name_each(self.live.as_slice(), numbers);
    }

    /// Names those whose member was told something, and those whose member is cut and wasn't known to
    /// be, by the numbers of these members. Nothing is done for any other connection.
    pub(crate) fn name_noted(&mut self, told: &[u32], cut: &[u32], numbers: &mut Vec<ConnNo>)
        requires none { numbers.old.items ≡ [] }
        requires room { length self.old ≤ vec_capacity numbers.old }
        ensures marked { self.new ≡ map (marked cut.now) self.old }
        ensures named { Names numbers.new.items (is_noted told.now cut.now) self.old }
        ensures capacity { vec_capacity numbers.old ≤ vec_capacity numbers.new }
    {
        name_told(self.live.as_slice(), told, numbers);
        name_cut(&mut self.live, cut, numbers);
    }
}

fn name_each(live: &[Live], numbers: &mut Vec<ConnNo>)
    requires none { numbers.old.items ≡ [] }
    requires room { length live.now ≤ vec_capacity numbers.old }
    ensures named { numbers.new.items ≡ numbers_of live.now }
    ensures capacity { vec_capacity numbers.old ≤ vec_capacity numbers.new }
{
    for one in live {
        numbers.push_reserved(one.number);
    }
}

/// Names the connections of members that were told something.
fn name_told(live: &[Live], told: &[u32], numbers: &mut Vec<ConnNo>)
    requires { IsNaming live.now numbers.old.items (vec_capacity numbers.old) }
    ensures naming { IsNaming live.now numbers.new.items (vec_capacity numbers.new) }
    ensures named { AddsNames numbers.old.items numbers.new.items
        (numbers_of (filter (λ l. list_any (λ k. k == l.n) told.now) live.now)) }
    ensures capacity { vec_capacity numbers.old ≤ vec_capacity numbers.new }
{
    for n in told {
        name_one(live, *n, numbers);
    }
}

fn name_one(live: &[Live], n: u32, numbers: &mut Vec<ConnNo>)
    requires { IsNaming live.now numbers.old.items (vec_capacity numbers.old) }
    ensures naming { IsNaming live.now numbers.new.items (vec_capacity numbers.new) }
    ensures named { AddsNames numbers.old.items numbers.new.items
        (numbers_of (filter (λ l. n == l.n) live.now)) }
    ensures capacity { vec_capacity numbers.old ≤ vec_capacity numbers.new }
{
    match number_of(live, n) {
        Some(number) => put_number(numbers, number),
        None => {}
    }
}

/// Names the connections of members that are cut, where that is new.
fn name_cut(live: &mut Vec<Live>, cut: &[u32], numbers: &mut Vec<ConnNo>)
    requires { IsNaming live.old.items numbers.old.items (vec_capacity numbers.old) }
    ensures naming { IsNaming live.new.items numbers.new.items (vec_capacity numbers.new) }
    ensures marked { live.new.items ≡ map (marked cut.now) live.old.items }
    ensures named { AddsNames numbers.old.items numbers.new.items
        (numbers_of (filter (λ l. list_any (λ k. k == l.n) cut.now && not l.is_cut) live.old.items)) }
    ensures capacity { vec_capacity numbers.old ≤ vec_capacity numbers.new }
{
    for n in cut {
        name_cut_one(live, *n, numbers);
    }
}

fn name_cut_one(live: &mut Vec<Live>, n: u32, numbers: &mut Vec<ConnNo>)
    requires { IsNaming live.old.items numbers.old.items (vec_capacity numbers.old) }
    ensures naming { IsNaming live.new.items numbers.new.items (vec_capacity numbers.new) }
    ensures marked { live.new.items ≡ map (cut_at n) live.old.items }
    ensures named { AddsNames numbers.old.items numbers.new.items
        (numbers_of (filter (λ l. n == l.n && not l.is_cut) live.old.items)) }
    ensures capacity { vec_capacity numbers.old ≤ vec_capacity numbers.new }
{
    match mark(live, n) {
        Some(number) => put_number(numbers, number),
        None => {}
    }
}

/// Keeps that a member is cut, and gives the number of its connection where that is new.
fn mark(live: &mut Vec<Live>, n: u32) -> Option<ConnNo>
    requires { AreListed live.old.items }
    ensures next { live.new.items ≡ map (cut_at n) live.old.items }
    ensures value { option_to_list result
        ≡ numbers_of (filter (λ l. n == l.n && not l.is_cut) live.old.items) }
{
    match place_of(live, n) {
        None => None,
        Some(place) => match live.get_mut(place) {
            None => None,
            Some(one) => mark_one(one),
        },
    }
}

/// Keeps that the member of a connection is cut, and gives its number where that is new.
fn mark_one(live: &mut Live) -> Option<ConnNo>
    ensures next { live.new ≡ cut_at live.old.n live.old }
    ensures value { option_to_list result
        ≡ numbers_of (filter (λ l. not l.is_cut) (live.old ∷ [])) }
{
    if live.is_cut {
        return None;
    }
    live.is_cut = true;
    Some(live.number)
}

/// The number of the connection of a member.
fn number_of(live: &[Live], n: u32) -> Option<ConnNo>
    requires { AreListed live.now }
    ensures value { option_to_list result ≡ numbers_of (filter (λ l. n == l.n) live.now) }
{
    match place_of(live, n) {
        None => None,
        Some(place) => Some(live[place].number),
    }
}

/// Where the connection of a member stands.
fn place_of(live: &[Live], n: u32) -> Option<usize>
    requires { AreListed live.now }
    ensures found { IfSome result (λ place. (place < length live.now)
        × ((d : Listed) → (slice_index_or live.now place d).n ≡ n)) }
    ensures none { IfNone result (filter (λ l. n == l.n) live.now ≡ []) }
{
    let place = live.partition_point(|l| l.n < n);
    if place < live.len() && live[place].n == n {
        return Some(place);
    }
    None
}

/// Puts a number among those that are named, unless it is one of them.
fn put_number(numbers: &mut Vec<ConnNo>, number: ConnNo)
    requires ascending { AscendFrom 0 numbers.old.items }
    requires first { 0 < number }
    requires room { ¬ IsIn numbers.old.items number
        → vec_len numbers.old < vec_capacity numbers.old }
    ensures ascending { AscendFrom 0 numbers.new.items }
    ensures put { AddsNames numbers.old.items numbers.new.items (number ∷ []) }
    ensures capacity { vec_capacity numbers.old ≤ vec_capacity numbers.new }
{
    match numbers.binary_search(&number) {
        Ok(_) => {}
        Err(place) => {
            // There is room for it, so it is put in.
            let _room = numbers.insert(place, number);
        }
    }
}

/// Whether the conference has ended, or its room is broken off.
pub(crate) fn is_shut(room: &Room) -> bool
    ensures { result ≡ is_shut room.now }
{
    match room.closed() {
        None | Some(RoomRefusal::JournalFull) => false,
        Some(RoomRefusal::Refused(_)) => true,
    }
}

/// Whether a conference has ended, and its room isn't broken off.
pub(crate) fn has_ended(room: &Room) -> bool
    ensures ended { result ≡ true → closed room.now.ledger ≡ Some (ByMachine Ended) }
    ensures other { result ≡ false → closed room.now.ledger ≢ Some (ByMachine Ended) }
{
    match room.closed() {
        Some(RoomRefusal::Refused(Refusal::Ended)) => true,
        _ => false,
    }
}
