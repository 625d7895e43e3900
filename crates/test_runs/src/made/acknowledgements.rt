//! The worked example of what is acknowledged, by the calls of a hub, and how much is taken at once.

use floor_config::Config;
use floor_hub::{Hub, HubRefusal, Refusal, RoomRefusal, Taken};
use std::alloc::Global;
use test_cases::Fault;

/// A Hello of user 11.
const HELLO: [u8; 12] = [0x20, 11, 0, 0, 0, 0, 0, 1, 0, 1, 0, 11];

/// How far behind a connection may be.
const BACKLOG: u32 = 1_024;

/// Hands in so many Hellos on the connection of user 11, and serves each.
fn say_hello(hub: &mut Hub, times: u32) -> Result<(), HubRefusal> {
    for _ in 0..times {
        hub.piece(2, &HELLO)?;
        hub.serve(2)?;
    }
    Ok(())
}

/// Takes what waits for the connection of user 11, and gives how many parcels that was.
fn take_all(hub: &mut Hub) -> u32 {
    let mut taken = 0u32;
    for _ in 0..2 * BACKLOG {
        if let Ok(Some(_)) = hub.take(2) {
            taken = taken.saturating_add(1);
        }
    }
    taken
}

/// Takes the first of what waits for the connection of user 11, and then as much as it takes to have so many bytes
/// again: one more, where two have as many.
fn take_as_many_bytes(hub: &mut Hub, alloc: Global) -> Result<(), Fault> {
    let one = Ok(Taken {
        count: 1,
        is_refused: false,
    });
    let mut buffer = Vec::new(alloc);
    let first = hub.take_all(2, &mut buffer, 1, usize::MAX);
    let enough = buffer.len();
    buffer.clear();
    let second = hub.take_all(2, &mut buffer, BACKLOG, enough);
    if [first, second] != [one, one] || buffer.len() != enough {
        return Err(Fault::Wrong("how many bytes are taken"));
    }
    Ok(())
}

/// A hub whose conference users 10 and 11 have joined.
fn joined(alloc: Global) -> Result<Hub, Fault> {
    let mut hub = Hub::new(alloc);
    let config = Config::demonstration(alloc)?;
    let done = [
        hub.open(alloc, config).err(),
        hub.attach(alloc, 1, 10).err(),
        hub.attach(alloc, 1, 11).err(),
    ];
    if done != [None; 3] {
        return Err(Fault::Wrong("opening and attaching"));
    }
    Ok(hub)
}

/// As many Hellos as can wait, acknowledgements of none, of too many and of one, then a Hello that is
/// answered, one that cuts and one that is refused.
pub fn run(alloc: Global) -> Result<usize, Fault> {
    let mut hub = joined(alloc)?;
    let done = [
        say_hello(&mut hub, BACKLOG),
        hub.took(2, 0),
        hub.took(2, BACKLOG + 1),
        hub.took(2, 1),
        say_hello(&mut hub, 1),
        say_hello(&mut hub, 1),
        say_hello(&mut hub, 1),
    ];
    let bad_count = Err(HubRefusal::ByRoom(RoomRefusal::Refused(Refusal::BadCount)));
    let cut = Err(HubRefusal::ByRoom(RoomRefusal::Refused(Refusal::Cut)));
    if done != [Ok(()), bad_count, bad_count, Ok(()), Ok(()), Ok(()), cut] {
        return Err(Fault::Wrong("what is acknowledged"));
    }
    take_as_many_bytes(&mut hub, alloc)?;
    if take_all(&mut hub) != BACKLOG - 1 {
        return Err(Fault::Wrong("how many parcels are told"));
    }
    // Two joins, as many Hellos as were told and the one that cuts, and one acknowledgement.
    match hub.status(1) {
        Ok(status) if status.events == BACKLOG + 5 => Ok(done.len()),
        _ => Err(Fault::Wrong("how many events there are")),
    }
}
