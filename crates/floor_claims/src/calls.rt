//! The calls of the run: behind each, the connection that is looked at is live, or the run stops.

ghost use Rattle.std.specs.Prelude.{◌≡◌, ◌++◌, [], OnOk, true};
ghost use Rattle.floor_loop.specs.Laws.{IsLive};
ghost use Rattle.floor_loop.specs.Written.{IsServing};
ghost use Rattle.floor_claims.specs.Claim.{IsWhole};
ghost use Rattle.floor_claims.specs.steps.Led.{Led, Writes};

use floor_loop::{ConnNo, HubRefusal, Loop};
use floor_room::Phase;
use std::alloc::{AllocError, Global};

/// How many messages are served for one reading at most.
const MOST: u32 = 64;

/// Why a run has no result.
#[derive(Clone, Copy, Debug, PartialEq, Eq)]
pub enum Stopped {
    /// A call of the loop was refused.
    Refused(HubRefusal),
    /// The connection isn't live any more, or it is the one that is to be lost.
    Gone,
    /// The conference of the connection is broken off.
    Broken,
    /// Memory was refused.
    Memory,
}

impl From<AllocError> for Stopped {
    ghost use Rattle.std.specs.Prelude.{◌≡◌};
    ghost use Rattle.floor_claims.specs.declared.calls.Stopped.TheVariants.{Memory};

    ghost from_gives = { λ _ e. e ≡ Memory };

    fn from(_e: AllocError) -> Stopped {
        Stopped::Memory
    }
}

impl From<HubRefusal> for Stopped {
    ghost use Rattle.std.specs.Prelude.{◌≡◌};
    ghost use Rattle.floor_claims.specs.declared.calls.Stopped.TheVariants.{Refused};

    ghost from_gives = { λ refusal e. e ≡ Refused refusal };

    fn from(refusal: HubRefusal) -> Stopped {
        Stopped::Refused(refusal)
    }
}

/// Whether a connection is live.
pub(crate) fn is_live(hub: &Loop, number: ConnNo) -> bool
    ensures live { result ≡ true → IsLive hub.now number }
    ensures serving { IsServing hub.now }
{
    let _until = hub.until(number);
    match hub.place(number) {
        Some(_place) => true,
        None => false,
    }
}

/// Another user's connection comes, or the user's whose connection was lost.
pub(crate) fn come(
    hub: &mut Loop,
    number: ConnNo,
    alloc: Global,
    conference: u32,
    user: u16,
    now: u64,
) -> Result<ConnNo, Stopped>
    ensures led { OnOk result (Led number hub.old hub.new []) }
{
    match hub.attach(alloc, conference, user, now) {
        Ok(other) => {
            if is_live(hub, number) {
                Ok(other)
            } else {
                Err(Stopped::Gone)
            }
        }
        Err(refusal) => Err(Stopped::Refused(refusal)),
    }
}

/// Bytes come from the connection, and its messages are served.
pub(crate) fn hand_in(hub: &mut Loop, number: ConnNo, bytes: &[u8], now: u64) -> Result<(), Stopped>
    ensures led { OnOk result (Led number hub.old hub.new []) }
{
    match hub.read(number, bytes, MOST, now) {
        Ok(_more) => {
            if is_live(hub, number) {
                Ok(())
            } else {
                Err(Stopped::Gone)
            }
        }
        Err(refusal) => Err(Stopped::Refused(refusal)),
    }
}

/// The loop names a connection that has something to write, if one has.
pub(crate) fn fill(hub: &mut Loop, number: ConnNo) -> Result<(), Stopped>
    ensures led { OnOk result (Led number hub.old hub.new []) }
{
    let _ready = hub.ready();
    if is_live(hub, number) {
        Ok(())
    } else {
        Err(Stopped::Gone)
    }
}

/// The socket of the connection takes so many of the bytes that are to be written to it, or as many as there are.
pub(crate) fn write(
    hub: &mut Loop,
    number: ConnNo,
    most: usize,
    taken: &mut Vec<u8>,
    now: u64,
) -> Result<(), Stopped>
    ensures writes { OnOk result (Writes number hub.old hub.new taken.old.items taken.new.items) }
{
    let lent = hub.writing(number);
    let count = lent.len().min(most);
    taken.extend_from_slice(&lent[..count])?;
    hub.wrote(number, count, now);
    if is_live(hub, number) {
        Ok(())
    } else {
        Err(Stopped::Gone)
    }
}

/// Another connection is lost: its member stays for a while, or leaves; and what waits for it is dropped.
pub(crate) fn lose(hub: &mut Loop, number: ConnNo, other: ConnNo, now: u64) -> Result<(), Stopped>
    ensures led { OnOk result (Led number hub.old hub.new []) }
{
    if other == number {
        return Err(Stopped::Gone);
    }
    match hub.lost(other, now) {
        Ok(_stays) => {
            if is_live(hub, number) {
                Ok(())
            } else {
                Err(Stopped::Gone)
            }
        }
        Err(refusal) => Err(Stopped::Refused(refusal)),
    }
}

/// What waits for another connection, whose member is away, is dropped.
pub(crate) fn drop_waiting(hub: &mut Loop, number: ConnNo, other: ConnNo) -> Result<(), Stopped>
    ensures led { OnOk result (Led number hub.old hub.new []) }
{
    if other == number {
        return Err(Stopped::Gone);
    }
    hub.discard(other);
    if is_live(hub, number) {
        Ok(())
    } else {
        Err(Stopped::Gone)
    }
}

/// Whether a connection is live, and its conference isn't broken off.
pub(crate) fn is_whole(hub: &Loop, number: ConnNo) -> bool
    ensures whole { result ≡ true → IsWhole hub.now number }
{
    let _until = hub.until(number);
    match hub.place(number) {
        Some(place) => match hub.status(place.conference) {
            Ok(status) => match status.phase {
                Phase::Running => true,
                Phase::Ended => true,
                Phase::Broken => false,
            },
            Err(_) => false,
        },
        None => false,
    }
}
