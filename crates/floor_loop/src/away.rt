//! Who is away: whose connection was lost, or whose conference was resumed.

ghost use Rattle.std.specs.Prelude.{◌≡◌, ◌≤◌, ◌<◌, ◌++◌, ◌∷◌, [], ℕ, if◌then◌else◌, IfNone, IfOk, IfSome, None, OnErr, OnOk, Some, false, nat_eq};
ghost use Rattle.std.specs.Option.{option_map};
ghost use Rattle.floor_loop.specs.Away.{IsOldest, away_among, ends_of, is_stay_of, stay_of};
ghost use Rattle.floor_loop.specs.Loop.{earlier};
ghost use Rattle.floor_loop.specs.steps.Soonest.{among_in, end_of, entry_at, older, sooner};
ghost use Rattle.indexmap.specs.IndexMap.{get};

use crate::grace::Grace;
use crate::line::Entry;
use crate::stay::Stay;
use floor_hub::{ConnNo, Live};
use indexmap::IndexMap;
use std::alloc::{AllocError, Global};
use std::marker::Model;

/// Who is away, by connection, and who has left since its user came back.
#[derive(Drop)]
pub(crate) struct Away {
    stays: IndexMap<u64, Stay>,
    grace: Grace,
    keeps_place: bool,
    back: Vec<ConnNo>,
}

impl Model for Away {
    ghost use Rattle.floor_loop.specs.Away.{Away};

    ghost Value = { Away };

    ghost view = { λ a. record {
      stays = a.stays.entries;
      grace = a.grace;
      keeps_place = a.keeps_place;
      back = a.back.items;
    } };
}

impl Away {
    /// Nobody. Takes no memory.
    pub(crate) fn new(alloc: Global, grace: Grace, keeps_place: bool) -> Away
        ensures value { result ≡ record {
          stays = [];
          grace = grace;
          keeps_place = keeps_place;
          back = [];
        } }
    {
        Away {
            stays: IndexMap::new(alloc),
            grace,
            keeps_place,
            back: Vec::new(alloc),
        }
    }

    /// How long members outlive their connections.
    pub(crate) fn grace(&self) -> Grace
        ensures value { result ≡ self.now.grace }
    {
        self.grace
    }

    /// Whether the last place of a conference is kept for who comes back.
    pub(crate) fn keeps_place(&self) -> bool
        ensures value { result ≡ self.now.keeps_place }
    {
        self.keeps_place
    }

    /// What is known of a connection, where it is away.
    pub(crate) fn get(&self, number: ConnNo) -> Option<Stay>
        ensures value { result ≡ stay_of self.now number }
    {
        self.stays.get(&number).copied()
    }

    /// A connection is away. After an error nothing has changed.
    pub(crate) fn put(&mut self, number: ConnNo, stay: Stay) -> Result<(), AllocError>
        ensures next { OnOk result (stay_of self.new number ≡ Some stay) }
        ensures others { (k : ℕ) → nat_eq number k ≡ false
            → stay_of self.new k ≡ stay_of self.old k }
        ensures same { self.new ≡ record self.old { stays = self.new.stays } }
        ensures left { OnErr result (self.new ≡ self.old) }
    {
        match self.stays.insert(number, stay) {
            Ok(_) => Ok(()),
            Err(_) => Err(AllocError),
        }
    }

    /// A connection isn't away.
    pub(crate) fn remove(&mut self, number: ConnNo)
        ensures gone { stay_of self.new number ≡ None }
        ensures others { (k : ℕ) → nat_eq number k ≡ false
            → stay_of self.new k ≡ stay_of self.old k }
        ensures same { self.new ≡ record self.old { stays = self.new.stays } }
    {
        let _gone = self.stays.swap_remove(&number);
    }

    /// Whose stay is over first, and when.
    pub(crate) fn first(&self) -> Option<Entry>
        ensures found { IfSome result (λ e. ends_of self.now e.number ≡ Some e.time) }
        ensures first { IfSome result (λ e. (number until : ℕ)
            → ends_of self.now number ≡ Some until → e.time ≤ until) }
        ensures none { IfNone result ((number : ℕ) → ends_of self.now number ≡ None) }
    {
        first_in(&self.stays)
    }

    /// Who of these live connections is away, and of this user, in their order.
    pub(crate) fn among(
        &self,
        alloc: Global,
        live: &[Live],
        user: u16,
    ) -> Result<Vec<ConnNo>, AllocError>
        ensures value { IfOk result (λ back. back.items ≡ away_among self.now user live.now) }
    {
        among_in(alloc, &self.stays, live, user)
    }

    /// Whoever of these connections is away since longest.
    pub(crate) fn oldest(&self, numbers: &[ConnNo]) -> Option<ConnNo>
        ensures found { IfSome result (λ number. IsOldest (stay_of self.now) numbers.now number) }
    {
        oldest_in(&self.stays, numbers)
    }

    /// Who has left since its user came back.
    pub(crate) fn back(&self) -> &[ConnNo]
        ensures value { result.now ≡ self.now.back }
    {
        self.back.as_slice()
    }

    /// These have left.
    pub(crate) fn set_back(&mut self, back: Vec<ConnNo>)
        ensures next { self.new ≡ record self.old { back = back.items } }
    {
        self.back = back;
    }
}

/// Whose stay is over first, and when.
fn first_in(stays: &IndexMap<u64, Stay>) -> Option<Entry>
    ensures found { IfSome result (λ e. end_of (get nat_eq stays.now) e.number ≡ Some e.time) }
    ensures first { IfSome result (λ e. (number until : ℕ)
        → end_of (get nat_eq stays.now) number ≡ Some until → e.time ≤ until) }
    ensures none { IfNone result ((number : ℕ) → end_of (get nat_eq stays.now) number ≡ None) }
{
    let mut first = None;
    for place in 0..stays.len() {
        first = sooner(first, entry_at(stays, place));
    }
    first
}

/// Whose stay stands at this place, and when it is over.
fn entry_at(stays: &IndexMap<u64, Stay>, place: usize) -> Option<Entry>
    ensures value { result ≡ entry_at stays.now.entries place }
    ensures found { IfSome result (λ e. end_of (get nat_eq stays.now) e.number ≡ Some e.time) }
{
    match stays.get_index(place) {
        Some((number, stay)) => Some(Entry {
            number: *number,
            time: stay.until,
        }),
        None => None,
    }
}

/// Who of these live connections is away, and of this user, in their order.
fn among_in(
    alloc: Global,
    stays: &IndexMap<u64, Stay>,
    live: &[Live],
    user: u16,
) -> Result<Vec<ConnNo>, AllocError>
    ensures value { IfOk result (λ back. back.items
        ≡ among_in (get nat_eq stays.now) user live.now) }
{
    let mut back = Vec::new(alloc);
    for one in live {
        put_if(&mut back, one.number, is_of(stays, one.number, user))?;
    }
    Ok(back)
}

/// Puts a number behind the others, if it is to be.
fn put_if(back: &mut Vec<ConnNo>, number: ConnNo, is_wanted: bool) -> Result<(), AllocError>
    ensures next { OnOk result (back.new.items
        ≡ back.old.items ++ (if is_wanted then number ∷ [] else [])) }
{
    if !is_wanted {
        return Ok(());
    }
    back.push(number)?;
    Ok(())
}

/// Whether a connection is away, and of this user.
fn is_of(stays: &IndexMap<u64, Stay>, number: ConnNo, user: u16) -> bool
    ensures value { result ≡ is_stay_of user (get nat_eq stays.now number) }
{
    match stays.get(&number) {
        Some(stay) => stay.user == user,
        None => false,
    }
}

/// Whoever of these connections is away since longest.
fn oldest_in(stays: &IndexMap<u64, Stay>, numbers: &[ConnNo]) -> Option<ConnNo>
    ensures found { IfSome result (λ number. IsOldest (get nat_eq stays.now) numbers.now number) }
{
    let mut oldest = None;
    for number in numbers {
        oldest = older(stays, oldest, *number);
    }
    match oldest {
        Some(entry) => Some(entry.number),
        None => None,
    }
}

/// Of these the connection that is away for longer, with the time since when it is.
fn older(stays: &IndexMap<u64, Stay>, oldest: Option<Entry>, number: ConnNo) -> Option<Entry>
    ensures value { result ≡ older (get nat_eq stays.now) oldest number }
{
    let stay = match stays.get(&number) {
        Some(stay) => *stay,
        None => return oldest,
    };
    match oldest {
        Some(entry) if entry.time <= stay.since => Some(entry),
        _ => Some(Entry {
            number,
            time: stay.since,
        }),
    }
}

/// The one of these that is over first.
fn sooner(first: Option<Entry>, other: Option<Entry>) -> Option<Entry>
    ensures value { result ≡ sooner first other }
{
    match (first, other) {
        (None, other) => other,
        (Some(first), None) => Some(first),
        (Some(first), Some(other)) => Some(if other.time < first.time {
            other
        } else {
            first
        }),
    }
}

/// Whose stay is over by now.
pub(crate) fn stay_over(away: &Away, now: u64) -> Option<ConnNo>
    ensures found { IfSome result (λ number. (until : ℕ)
        × (ends_of away.now number ≡ Some until) × (until ≤ now)) }
    ensures none { IfNone result ((number until : ℕ)
        → ends_of away.now number ≡ Some until → now < until) }
{
    match away.first() {
        Some(entry) => {
            if entry.time <= now {
                return Some(entry.number);
            }
            None
        }
        None => None,
    }
}

/// The earlier of a time and the end of a stay, where there are both.
pub(crate) fn soonest(time: Option<u64>, first: Option<Entry>) -> Option<u64>
    ensures value { result ≡ earlier time (option_map (λ e. e.time) first) }
{
    match (time, first) {
        (None, None) => None,
        (None, Some(first)) => Some(first.time),
        (Some(time), None) => Some(time),
        (Some(time), Some(first)) => Some(time.min(first.time)),
    }
}
