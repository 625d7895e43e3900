//! What waits for connections, written for the caller.

ghost use Rattle.std.specs.Prelude.{◌≡◌, ◌≤◌, ◌<◌, length, take};
ghost use Rattle.floor_ffi.specs.Gives.{TakeGives, ToldGives};
ghost use Rattle.floor_ffi.specs.Numbers.{number_of};
ghost use Rattle.floor_ffi.specs.steps.Taken.{IsEnd, PutsOne, TakesOne};

use crate::answers::{FloorNamed, FloorTaken};
use crate::outcome::Outcome;
use floor_hub::{Hub, HubRefusal, Parcel};

/// What taking one parcel comes to.
#[derive(Clone, Copy)]
enum Next {
    /// It was taken, and has so many bytes.
    Taken(usize),
    /// It has so many bytes, more than there is room for.
    Longer(usize),
    /// No parcel waits.
    Nothing,
    /// No live connection has the number.
    NoConnection,
}

/// Takes the parcels that wait for a connection, as many as there is room for, one behind the other.
pub(crate) fn take(hub: &mut Hub, connection: u64, room: &mut [u8]) -> FloorTaken
    ensures gives { TakeGives hub.old connection hub.new result.result result.parcels result.len
        (length room.old) room.new }
{
    let mut len = 0;
    for parcels in 0..u32::MAX {
        let (_, rest) = room.split_at_mut(len);
        let next = take_one(hub, connection, rest);
        match next {
            Next::Taken(more) => len += more,
            _ => return ended(next, parcels, len),
        }
    }
    FloorTaken {
        result: Outcome::Done.number(),
        parcels: u32::MAX,
        len,
    }
}

/// Taking has ended, behind so many parcels, which have so many bytes.
fn ended(next: Next, parcels: u32, len: usize) -> FloorTaken
    ensures value { IsEnd next parcels len result.result result.parcels result.len }
{
    let (outcome, len) = match next {
        _ if 0 < parcels => (Outcome::Done, len),
        Next::Longer(first) => (Outcome::TooShort, first),
        Next::NoConnection => (Outcome::Refused(HubRefusal::NoConnection), 0),
        _ => (Outcome::Nothing, 0),
    };
    FloorTaken {
        result: outcome.number(),
        parcels,
        len,
    }
}

/// Takes the first parcel that waits for a connection, if there is room for it.
fn take_one(hub: &mut Hub, connection: u64, room: &mut [u8]) -> Next
    ensures takes { TakesOne hub.old connection hub.new (length room.old) room.new result }
{
    match put_first(hub, connection, room) {
        Next::Taken(len) => {
            // What was put waits no more.
            let _put = hub.take(connection);
            Next::Taken(len)
        }
        Next::Longer(len) => Next::Longer(len),
        Next::Nothing => Next::Nothing,
        Next::NoConnection => Next::NoConnection,
    }
}

/// Puts the first parcel that waits for a connection, which goes on to wait, if there is room for it.
fn put_first(hub: &Hub, connection: u64, room: &mut [u8]) -> Next
    ensures puts { PutsOne hub.now connection (length room.old) room.new result }
{
    match hub.first(connection) {
        Some(parcel) => {
            let len = parcel.len();
            if room.len() < len {
                return Next::Longer(len);
            }
            fill(parcel, room);
            Next::Taken(len)
        }
        None => match hub.place(connection) {
            Some(_) => Next::Nothing,
            None => Next::NoConnection,
        },
    }
}

/// Puts a parcel to the front of a room that has place for it.
fn fill(parcel: &Parcel, room: &mut [u8])
    requires room { length parcel.now.bytes ≤ length room.old }
    ensures bytes { take (length parcel.now.bytes) room.new ≡ parcel.now.bytes }
{
    let header = parcel.header();
    let payload = parcel.payload();
    let (front, rest) = room.split_at_mut(header.len());
    front.copy_from_slice(header);
    let (middle, _) = rest.split_at_mut(payload.len());
    middle.copy_from_slice(payload);
}

/// Tells whom the last call concerned.
pub(crate) fn told(hub: &mut Hub, room: &mut [u64]) -> FloorNamed
    ensures gives { ToldGives hub.old hub.new result.result result.count room.old room.new }
{
    let concerned = hub.concerned();
    let count = concerned.len();
    if room.len() < count {
        return FloorNamed {
            result: Outcome::TooShort.number(),
            count,
        };
    }
    let (front, _) = room.split_at_mut(count);
    front.copy_from_slice(concerned);
    FloorNamed {
        result: Outcome::Done.number(),
        count,
    }
}
