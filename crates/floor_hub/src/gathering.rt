//! What a room has queued to one of its members, as bytes, and who that member is.

ghost use Rattle.std.specs.Prelude.{◌≡◌, ◌++◌, IfOk, OnErr, OnOk, length, slice_get, take};
ghost use Rattle.std.specs.Option.{option_copied};
ghost use Rattle.floor_machine.specs.Events.{joiner};
ghost use Rattle.floor_room.specs.Replay.{bytes_of};
ghost use Rattle.floor_hub.specs.Concerned.{handed};
ghost use Rattle.floor_hub.specs.Members.{user_of};
ghost use Rattle.floor_hub.specs.steps.Running.{QueuedIn, first_bytes};

use floor_room::{Event, Parcel, Room};
use floor_wire::Octets;
use std::alloc::{AllocError, Global};
use std::collections::VecDeque;

/// All bytes that a room has queued to a member, where none of them was taken and the room isn't
/// broken off.
pub(crate) fn queued_to(alloc: Global, room: &Room, n: u32) -> Result<Octets, AllocError>
    ensures value { QueuedIn room.now n result }
{
    let _journal = room.journal();
    match room.held(n) {
        None => Ok(Octets::from_vec(Vec::new(alloc))),
        Some(held) => held_bytes(alloc, held),
    }
}

/// The bytes of parcels, one after another.
fn held_bytes(alloc: Global, held: &VecDeque<Parcel>) -> Result<Octets, AllocError>
    ensures { IfOk result (λ bytes. bytes ≡ bytes_of held.now.items) }
{
    let (front, back) = held.as_slices();
    let mut bytes = Vec::new(alloc);
    put_all(front, &mut bytes)?;
    put_all(back, &mut bytes)?;
    Ok(Octets::from_vec(bytes))
}

/// Puts the bytes of parcels, one after another.
fn put_all(parcels: &[Parcel], bytes: &mut Vec<u8>) -> Result<(), AllocError>
    ensures { OnOk result (bytes.new.items ≡ bytes.old.items ++ bytes_of parcels.now) }
{
    for parcel in parcels {
        put(parcel, bytes)?;
    }
    Ok(())
}

/// Puts the bytes of a parcel. After an error some first of them were put.
fn put(parcel: &Parcel, bytes: &mut Vec<u8>) -> Result<(), AllocError>
    ensures next { OnOk result (bytes.new.items ≡ bytes.old.items ++ parcel.now.bytes) }
    ensures left { take (length bytes.old.items) bytes.new.items ≡ bytes.old.items }
{
    bytes.extend_from_slice(parcel.header())?;
    bytes.extend_from_slice(parcel.payload())?;
    Ok(())
}

/// The first parcel that is handed out to a member, which goes on to wait; none where not all that was told
/// is kept.
pub(crate) fn first_in(room: &Room, n: u32) -> Option<&Parcel>
    ensures value { option_copied result ≡ slice_get (handed room.now n) 0 }
{
    if !room.is_kept() {
        return None;
    }
    match room.held(n) {
        Some(held) => held.front(),
        None => None,
    }
}

/// Puts the bytes of the first parcel that is handed out to a member. After an error nothing has changed.
pub(crate) fn put_first(room: &Room, n: u32, bytes: &mut Vec<u8>) -> Result<(), AllocError>
    ensures next { OnOk result
        (bytes.new.items ≡ bytes.old.items ++ first_bytes (handed room.now n)) }
    ensures left { OnErr result (bytes.new.items ≡ bytes.old.items) }
{
    match first_in(room, n) {
        Some(parcel) => put_whole(parcel, bytes),
        None => Ok(()),
    }
}

/// Puts the bytes of a parcel. After an error nothing has changed.
fn put_whole(parcel: &Parcel, bytes: &mut Vec<u8>) -> Result<(), AllocError>
    ensures next { OnOk result (bytes.new.items ≡ bytes.old.items ++ parcel.now.bytes) }
    ensures left { OnErr result (bytes.new.items ≡ bytes.old.items) }
{
    let before = bytes.len();
    match put(parcel, bytes) {
        Ok(()) => Ok(()),
        Err(_) => {
            bytes.truncate(before);
            Err(AllocError)
        }
    }
}

/// The user that joined as n, and None where nobody did.
pub(crate) fn user_of(events: &[Event], n: u32) -> Option<u16>
    ensures value { result ≡ user_of events.now n }
{
    if n == 0 {
        return None;
    }
    let mut left = n;
    for event in events {
        match joiner(event) {
            Some(user) => {
                if left == 1 {
                    return Some(user);
                }
                left -= 1;
            }
            None => {}
        }
    }
    None
}

/// The user that joins by an event.
fn joiner(event: &Event) -> Option<u16>
    ensures value { result ≡ joiner event.now }
{
    match event {
        Event::Join { user } => Some(*user),
        _ => None,
    }
}
