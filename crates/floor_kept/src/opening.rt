//! The conference that a file's events lead to.

ghost use Rattle.std.specs.Prelude.{◌≡◌, Err, IfErr, IfOk, OnOk};
ghost use Rattle.floor_kept.specs.Body.{events_of};
ghost use Rattle.floor_kept.specs.Opening.{IsOpened, IsRefused, notes_of};
ghost use Rattle.floor_kept.specs.steps.Ran.{IsRefusedEntry, Ran, Stepped, fault_of};
ghost use Rattle.floor_room.specs.Calls.{Applied};
ghost use Rattle.floor_room.specs.Ledger.{IsRefusedBy, refusal};

use crate::entry::Entry;
use floor_config::Config;
use floor_machine::{Act, Event};
use floor_room::{Effects, Room, RoomRefusal};
use std::alloc::{AllocError, AllocFailed, Global};

/// A conference as its file left it.
#[derive(Debug, Drop)]
pub struct Opened {
    /// The room, with the journal that was kept. What its events told was taken, and is nowhere.
    pub room: Room,
    /// The entries that are no events, in order.
    pub notes: Vec<Entry>,
}

/// An event that isn't taken behind those before it.
#[derive(Clone, Copy, Debug, PartialEq, Eq)]
pub struct Unlawful {
    /// Its place in the journal, from 1 on.
    pub place: usize,
    /// The number of its entry among all of the file, from 1 on.
    pub number: usize,
}

/// Why no conference is opened.
#[derive(Clone, Copy, Debug, PartialEq, Eq)]
pub enum OpenFault {
    /// The events are no journal of the configuration.
    NotAJournal(Unlawful),
    /// Memory was refused.
    Memory,
}

impl From<AllocError> for OpenFault {
    ghost use Rattle.std.specs.Prelude.{◌≡◌};
    ghost use Rattle.floor_kept.specs.declared.opening.OpenFault.TheVariants.{Memory};

    ghost from_gives = { λ _ e. e ≡ Memory };

    fn from(_e: AllocError) -> OpenFault {
        OpenFault::Memory
    }
}

impl<T: Drop> From<AllocFailed<T>> for OpenFault {
    ghost use Rattle.std.specs.Prelude.{◌≡◌};
    ghost use Rattle.floor_kept.specs.declared.opening.OpenFault.TheVariants.{Memory};

    ghost from_gives = { λ _ e. e ≡ Memory };

    fn from(_e: AllocFailed<T>) -> OpenFault {
        OpenFault::Memory
    }
}

/// Why an entry isn't run.
#[derive(Clone, Copy, Debug, PartialEq, Eq)]
enum StepFault {
    /// Its event is refused.
    Refused,
    /// Memory was refused.
    Memory,
}

/// Opens a conference with this configuration, and runs the events among the entries. Refused by the
/// first event that the machine refuses, or that is one too many.
pub fn open_kept(alloc: Global, config: Config, entries: Vec<Entry>) -> Result<Opened, OpenFault>
    ensures value { IfOk result (λ opened.
        IsOpened config (events_of entries.items) opened.room) }
    ensures notes { IfOk result (λ opened. opened.notes.items ≡ notes_of entries.items) }
    ensures refused { IfErr result (IsRefused config entries.items) }
{
    let mut room = Room::new(alloc, config)?;
    let mut notes = Vec::new(alloc);
    let mut effects = Effects::new(alloc);
    let mut number = 0usize;
    for entry in entries {
        number += 1;
        let place = room.journal().len() + 1;
        match step(&mut room, &mut notes, &mut effects, entry) {
            Ok(()) => {}
            Err(StepFault::Memory) => return Err(OpenFault::Memory),
            Err(StepFault::Refused) => {
                return Err(OpenFault::NotAJournal(Unlawful { place, number }));
            }
        }
    }
    let _journal = room.journal();
    Ok(Opened { room, notes })
}

/// Runs an entry's event, or keeps the entry where it is none.
fn step(
    room: &mut Room,
    notes: &mut Vec<Entry>,
    effects: &mut Effects,
    entry: Entry,
) -> Result<(), StepFault>
    ensures took { OnOk result
        (Stepped room.old room.new notes.old.items notes.new.items entry) }
    ensures refused { result ≡ Err StepFault.Refused → IsRefusedEntry room.old entry }
{
    match entry {
        Entry::Happened(event) => match run(room, event, effects) {
            Ok(()) => Ok(()),
            Err(refusal) => Err(fault_of(refusal)),
        },
        note => match notes.push(note) {
            Ok(()) => Ok(()),
            Err(_) => Err(StepFault::Memory),
        },
    }
}

/// Why an entry isn't run, by the refusal of its event.
fn fault_of(refusal: RoomRefusal) -> StepFault
    ensures { result ≡ fault_of refusal }
{
    if refusal.is_memory() {
        StepFault::Memory
    } else {
        StepFault::Refused
    }
}

/// Runs one event, and takes what it tells.
fn run(room: &mut Room, event: Event, effects: &mut Effects) -> Result<(), RoomRefusal>
    ensures took { OnOk result (Ran room.old room.new event) }
    ensures refused { IsRefusedBy (refusal room.old.ledger event) result }
{
    add(room, event, effects)?;
    for n in effects.told.iter() {
        take_all(room, *n);
    }
    Ok(())
}

/// Adds an event by the call of its kind.
fn add(room: &mut Room, event: Event, effects: &mut Effects) -> Result<(), RoomRefusal>
    ensures took { OnOk result (Applied room.old room.new event) }
    ensures refused { IsRefusedBy (refusal room.old.ledger event) result }
{
    match event {
        Event::Join { user } => {
            room.join(user, effects)?;
            Ok(())
        }
        Event::Message { n, frame } => {
            room.serve(n, frame, effects)?;
            Ok(())
        }
        Event::Took { n, k } => room.took(n, k, effects),
        Event::Leave { n } => room.leave(n, effects),
        Event::Revoke { request } => room.admin(Act::Revoke(request), effects),
        Event::Close => room.admin(Act::Close, effects),
        Event::AddUser { user } => room.admin(Act::AddUser(user), effects),
        Event::AddFloor { floor } => room.admin(Act::AddFloor(floor), effects),
        Event::SetChair { floor, chair } => room.admin(Act::SetChair(floor, chair), effects),
        // Nobody waits for its answer any more.
        Event::Say { user, frame } => {
            room.say(user, frame, effects)?;
            Ok(())
        }
    }
}

/// Takes all that waits for a member.
fn take_all(room: &mut Room, n: u32)
    ensures { room.new.ledger ≡ room.old.ledger }
{
    let waiting = match room.held(n) {
        Some(held) => held.len(),
        None => 0,
    };
    for _ in 0..waiting {
        let _parcel = room.take(n);
    }
}
