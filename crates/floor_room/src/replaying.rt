//! A journal that is run again.

ghost use Rattle.std.specs.Prelude.{◌≡◌, ◌<◌, ◌++◌, ◌∷◌, [], false, IfErr, IfOk, OnOk, length};
ghost use Rattle.floor_machine.specs.Change.{IsLawful};
ghost use Rattle.floor_machine.specs.Journal.{IsJournal, Q, parcels_of, sent_to};
ghost use Rattle.floor_machine.specs.Machine.{whole};
ghost use Rattle.floor_machine.specs.Next.{next};
ghost use Rattle.floor_room.specs.Replay.{IsFault, bytes_of};

use crate::journal::Place;
use floor_machine::{Config, Event, MAX_EVENTS, Machine, Parcel, Refusal, SharedInfo};
use std::alloc::{AllocError, Global};

/// Why events aren't run.
#[derive(Clone, Copy, Debug, PartialEq, Eq)]
pub enum ReplayFault {
    /// The events up to this place are no journal.
    NotAJournal(Place),
    /// Memory was refused.
    Memory,
}

impl From<AllocError> for ReplayFault {
    ghost use Rattle.std.specs.Prelude.{◌≡◌};
    ghost use Rattle.floor_room.specs.declared.replaying.ReplayFault.TheVariants.{Memory};

    ghost from_gives = { λ _ e. e ≡ Memory };

    fn from(_e: AllocError) -> ReplayFault {
        ReplayFault::Memory
    }
}

/// Why an event isn't run.
#[derive(Clone, Copy, Debug, PartialEq, Eq)]
enum StepFault {
    /// It isn't lawful.
    Unlawful,
    /// Memory was refused.
    Memory,
}

impl From<AllocError> for StepFault {
    ghost use Rattle.std.specs.Prelude.{◌≡◌};
    ghost use Rattle.floor_room.specs.declared.replaying.StepFault.TheVariants.{Memory};

    ghost from_gives = { λ _ e. e ≡ Memory };

    fn from(_e: AllocError) -> StepFault {
        StepFault::Memory
    }
}

/// What the events send the member n, where they are a journal: all bytes of its parcels. Else
/// `NotAJournal`, with the place of the first event that isn't lawful after those before it or is
/// one too many.
pub fn replay(
    alloc: Global,
    config: &Config,
    events: &[Event],
    n: u32,
) -> Result<Vec<u8>, ReplayFault>
    ensures journal { OnOk result (IsJournal config.now events.now) }
    ensures value { IfOk result (λ bytes. bytes.items ≡ Q config.now events.now n) }
    ensures fault { IfErr result (IsFault config.now events.now) }
{
    let copy = config.copy(alloc)?;
    let mut machine = Machine::new(alloc, copy)?;
    let mut bytes = Vec::new(alloc);
    let mut changed = Vec::new(alloc);
    for (done, event) in events.iter().enumerate() {
        if done >= MAX_EVENTS {
            return Err(ReplayFault::NotAJournal((done + 1) as u32));
        }
        match step(&mut machine, event, n, &mut bytes, &mut changed) {
            Ok(()) => {}
            Err(StepFault::Memory) => return Err(ReplayFault::Memory),
            Err(StepFault::Unlawful) => return Err(ReplayFault::NotAJournal((done + 1) as u32)),
        }
    }
    Ok(bytes)
}

/// Runs one event, and puts the bytes of the parcels to n. What it changed is left in a buffer that serves
/// all events.
fn step(
    machine: &mut Machine,
    event: &Event,
    n: u32,
    bytes: &mut Vec<u8>,
    changed: &mut Vec<SharedInfo>,
) -> Result<(), StepFault>
    requires few { length machine.old.conference.members < 4294967295 }
    requires whole { machine.old ≡ whole machine.old.conference }
    ensures lawful { OnOk result (IsLawful machine.old.conference event.now) }
    ensures next { OnOk result (machine.new ≡ whole (next machine.old.conference event.now)) }
    ensures bytes { OnOk result (bytes.new.items ≡ bytes.old.items
        ++ bytes_of (sent_to n (parcels_of machine.old.conference event.now))) }
    ensures unlawful { result ≡ Err StepFault.Unlawful
        → ¬ IsLawful machine.old.conference event.now }
{
    // A message of it is whole.
    let _message = event.message();
    let mut out = Vec::new(*bytes.allocator());
    match machine.apply(event, &mut out, changed) {
        Ok(_answer) => {}
        Err(Refusal::Memory) => return Err(StepFault::Memory),
        Err(_) => return Err(StepFault::Unlawful),
    }
    put_bytes(&out, n, bytes)?;
    Ok(())
}

/// Puts the bytes of the parcels to n.
fn put_bytes(out: &[Parcel], n: u32, bytes: &mut Vec<u8>) -> Result<(), AllocError>
    ensures { OnOk result (bytes.new.items
        ≡ bytes.old.items ++ bytes_of (sent_to n out.now)) }
{
    for parcel in out {
        put_if(parcel, n, bytes)?;
    }
    Ok(())
}

/// Puts the bytes of a parcel, if it is to n.
fn put_if(parcel: &Parcel, n: u32, bytes: &mut Vec<u8>) -> Result<(), AllocError>
    ensures { OnOk result (bytes.new.items
        ≡ bytes.old.items ++ bytes_of (sent_to n (parcel.now ∷ []))) }
{
    if parcel.n() == n {
        bytes.extend_from_slice(parcel.header())?;
        bytes.extend_from_slice(parcel.payload())?;
    }
    Ok(())
}
