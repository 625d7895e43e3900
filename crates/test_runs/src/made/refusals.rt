//! Refusals by the hub's calls that no line of a script meets.

use floor_config::Config;
use floor_hub::{Hub, HubRefusal};
use std::alloc::Global;
use test_cases::Fault;

/// The number of a connection of user 10, or 0.
fn attach(alloc: Global, hub: &mut Hub) -> u64 {
    hub.attach(alloc, 1, 10).unwrap_or(0)
}

/// Whether a parcel waits.
fn take(hub: &mut Hub, connection: u64) -> Result<bool, HubRefusal> {
    match hub.take(connection) {
        Ok(parcel) => Ok(parcel.is_some()),
        Err(refusal) => Err(refusal),
    }
}

fn leave(hub: &mut Hub, connection: u64) -> Result<(), HubRefusal> {
    hub.leave(connection)
}

fn send(hub: &mut Hub, connection: u64) -> Result<(), HubRefusal> {
    hub.piece(connection, &[0x20])
}

/// Opening again, and what is asked or acknowledged of a connection that left, is refused.
pub fn run(alloc: Global) -> Result<usize, Fault> {
    let mut hub = Hub::new(alloc);
    let first = Config::demonstration(alloc)?;
    let second = Config::demonstration(alloc)?;
    let opened = [hub.open(alloc, first), hub.open(alloc, second)];
    let connection = attach(alloc, &mut hub);
    let taken = take(&mut hub, connection);
    let left = leave(&mut hub, connection);
    let gone = [
        take(&mut hub, connection).err(),
        send(&mut hub, connection).err(),
        hub.took(connection, 1).err(),
    ];
    if opened != [Ok(()), Err(HubRefusal::Used)] || taken != Ok(false) || left != Ok(()) {
        return Err(Fault::Wrong("opening, taking or leaving"));
    }
    if gone != [Some(HubRefusal::NoConnection); 3] {
        return Err(Fault::Wrong("a connection that left"));
    }
    Ok(6)
}
