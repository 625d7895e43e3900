//! The events of a conference, as the first thread follows them, and how long they took.

ghost use Rattle.std.specs.Prelude.{◌≡◌, drop, IfOk, length, nat_eq, Some};
ghost use Rattle.floor_hub.specs.Hub.{room_at};
ghost use Rattle.floor_poll.specs.Pieces.{IsFront, IsPiece, taken, taken_by};
ghost use Rattle.floor_poll.specs.Told.{broken_at, told_of};
ghost use Rattle.indexmap.specs.IndexMap.{get};
ghost use Rattle.floor_room.specs.Room.{Room};

use crate::counters::note_times;
use crate::inbox::Note;
use crate::mailbox::Piece;
use crate::refusals::refusal_of;
use crate::worker::Worker;
use floor_control::ControlRefusal;
use floor_loop::{ConnNo, Event};
use floor_room::Phase;
use std::alloc::{AllocError, Global};
use std::sync::Wait;
use std::time::{Clock, Instant};

/// How many events are copied at a time.
const MAX_EVENTS: usize = 1_000;

/// Behind so many bytes of messages no further event is copied.
const ENOUGH_BYTES: usize = 262_144;

/// How a conference stood before something came.
#[derive(Clone, Copy, Debug)]
pub struct Before {
    conference: u32,
    events: u32,
    begun: Option<Instant>,
}

impl<R: Clock + Drop> Worker<R> {
    /// How many events a conference has.
    pub fn events_of(&self, conference: u32) -> u32
        ensures value { (r : Room) → room_at self.entry.now.hub.hub conference ≡ Some r
            → result ≡ length r.ledger.journal }
    {
        match self.hub.status(conference) {
            Ok(status) => status.events,
            Err(_) => 0,
        }
    }

    /// How a conference stands before something comes, where that is to be counted and told.
    pub fn before(&self, conference: u32) -> Option<Before> {
        if self.inbox.is_none() && !self.keeps() {
            return None;
        }
        Some(Before {
            conference,
            events: self.events_of(conference),
            begun: Instant::now(&self.rt).ok(),
        })
    }

    /// The same of a connection's conference.
    pub fn before_of(&self, number: ConnNo) -> Option<Before> {
        if self.inbox.is_none() && !self.keeps() {
            return None;
        }
        match self.hub.place(number) {
            Some(place) => self.before(place.conference),
            None => None,
        }
    }
}

impl<R: Clock + Wait + Copy + Drop> Worker<R> {
    /// Takes down what came, and tells the first thread of it. Gives how many events there were.
    pub fn note_events(&mut self, before: Option<Before>) -> u32
        ensures hub { self.new.hub ≡ self.old.hub }
    {
        let Some(before) = before else {
            return 0;
        };
        let Before {
            conference,
            events,
            begun,
        } = before;
        let Ok(status) = self.hub.status(conference) else {
            return 0;
        };
        let is_broken = self.is_broken(conference);
        let count = status.events.saturating_sub(events);
        if 0 < count {
            self.note_changed(conference);
        }
        let nanoseconds = nanoseconds_since(&self.rt, begun);
        note_times(&mut self.counters, nanoseconds, count);
        self.tell_growth(conference, status.events, is_broken);
        count
    }

    /// Takes down the messages of a member that were served.
    pub fn note_messages(&mut self, before: Option<Before>)
        ensures hub { self.new.hub ≡ self.old.hub }
    {
        let count = self.note_events(before);
        self.counters.messages = self.counters.messages.saturating_add(u64::from(count));
    }

    /// Takes down how many messages were taken whole that were told to a member, where some were.
    pub fn note_taken(&mut self, before: Option<Before>)
        ensures hub { self.new.hub ≡ self.old.hub }
    {
        let Some(
            Before {
                conference,
                events,
                begun: _,
            },
        ) = before
        else {
            return;
        };
        if self.note_events(before) == 0 {
            return;
        }
        let taken = match self.hub.journal(conference) {
            Ok(all) => taken_behind(all, events as usize),
            Err(_) => 0,
        };
        self.counters.told = self.counters.told.saturating_add(taken);
    }

    /// Tells the first thread, where it follows a conference, that there is more than it knows.
    fn tell_growth(&mut self, conference: u32, events: u32, is_broken: bool)
        ensures hub { self.new.hub ≡ self.old.hub }
    {
        let Some(known) = self.followed.get(&conference) else {
            return;
        };
        if *known < events || is_broken {
            let _known = self.followed.swap_remove(&conference);
            self.put(Note::Grown { conference });
        }
    }

    /// Copies of a conference's events behind the first `done`. Behind the last of them the first thread is told once
    /// there are more.
    pub fn piece(&mut self, conference: u32, done: usize) -> Result<Piece, ControlRefusal>
        ensures front { (r : Room) → room_at self.old.hub.hub conference ≡ Some r
            → IfOk result (λ piece. IsPiece done (told_of
            (broken_at (get nat_eq self.old.conferences conference)) r.ledger.journal) piece) }
        ensures hub { self.new.hub ≡ self.old.hub }
    {
        let all = self.told_events(conference)?;
        let count = all.len();
        let events = copies_behind(self.alloc, all, done)?;
        let known = done.saturating_add(events.len());
        let has_more = known < count;
        let is_broken = self.is_broken(conference);
        if !has_more && !is_broken {
            self.follow(conference, known)?;
        }
        Ok(Piece {
            events,
            has_more,
            is_broken,
        })
    }

    /// What is told of a conference's events.
    fn told_events(&self, conference: u32) -> Result<&[Event], ControlRefusal>
        ensures found { (r : Room) → room_at self.entry.now.hub.hub conference ≡ Some r
            → IfOk result (λ all. all.now ≡ told_of
            (broken_at (get nat_eq self.entry.now.conferences conference)) r.ledger.journal) }
    {
        let all = match self.hub.journal(conference) {
            Ok(events) => events,
            Err(refusal) => return Err(refusal_of(refusal)),
        };
        match self.broken_at(conference) {
            Some(events) => Ok(all.get(..events as usize).unwrap_or(all)),
            None => Ok(all),
        }
    }

    /// Has the first thread told once a conference has more events than so many.
    fn follow(&mut self, conference: u32, known: usize) -> Result<(), AllocError>
        ensures hub { self.new.hub ≡ self.old.hub }
    {
        let known = u32::try_from(known).unwrap_or(u32::MAX);
        match self.followed.insert(conference, known) {
            Ok(_) => Ok(()),
            Err(_) => Err(AllocError),
        }
    }

    fn is_broken(&self, conference: u32) -> bool {
        match self.standing(conference) {
            Ok(status) => status.phase == Phase::Broken,
            Err(_) => false,
        }
    }
}

/// Copies of the events behind the first `done`: of no further ones behind 256 KiB of messages.
fn copies_behind(alloc: Global, all: &[Event], done: usize) -> Result<Vec<Event>, AllocError>
    ensures front { IfOk result (λ events. IsFront done all.now events.items) }
{
    let behind = all.get(done..).unwrap_or(&[]);
    let mut events = Vec::new(alloc);
    let mut bytes = 0usize;
    for event in behind {
        if MAX_EVENTS <= events.len() || ENOUGH_BYTES <= bytes {
            break;
        }
        events.push(event.copy(alloc)?)?;
        bytes = bytes.saturating_add(message_len(event));
    }
    Ok(events)
}

/// How many bytes the message of an event has.
fn message_len(event: &Event) -> usize {
    match event.message() {
        Some(frame) => frame.bytes().len(),
        None => 0,
    }
}

/// How many messages were taken whole in the events behind the first `done`.
fn taken_behind(all: &[Event], done: usize) -> u64
    ensures value { result ≡ taken (drop done all.now) }
{
    let mut count = 0u64;
    for event in all.get(done..).unwrap_or(&[]) {
        count = count.saturating_add(taken_by(event));
    }
    count
}

/// How many messages an event says were taken whole.
fn taken_by(event: &Event) -> u64
    ensures value { result ≡ taken_by event.now }
{
    match event {
        Event::Took { n: _, k } => u64::from(*k),
        _ => 0,
    }
}

/// How many nanoseconds have gone by since then.
fn nanoseconds_since<R: Clock>(rt: &R, begun: Option<Instant>) -> u64 {
    match (begun, Instant::now(rt)) {
        (Some(begun), Ok(now)) => {
            u64::try_from(now.duration_since(begun).as_nanos()).unwrap_or(u64::MAX)
        }
        _ => 0,
    }
}
