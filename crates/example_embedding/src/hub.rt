//! A program that holds all conferences, as a conference bridge does: a hub.

use crate::fault::Fault;
use floor_config::Config;
use floor_hub::{ConnNo, Hub, HubRefusal, Served};
use std::alloc::Global;
use std::io::Write;

/// The fewest bytes that a message has (RFC 8855, section 5.1).
const HEADER_LEN: usize = 12;

/// User 10 asks for floor 1 of conference 1 (section 5.3.1).
const REQUEST: [u8; 16] = [0x20, 1, 0, 1, 0, 0, 0, 1, 0, 2, 0, 10, 0x04, 4, 0, 1];

/// User 11 does.
const ANOTHER: [u8; 16] = [0x20, 1, 0, 1, 0, 0, 0, 1, 0, 1, 0, 11, 0x04, 4, 0, 1];

/// User 10 gives request 1 back (section 5.3.2).
const RELEASE: [u8; 16] = [0x20, 2, 0, 1, 0, 0, 0, 1, 0, 3, 0, 10, 0x06, 4, 0, 1];

/// Two users ask for a floor that has room for one, and the first gives it back. A refusal ends this
/// program; it concerns one connection or one conference, so a bridge gives up those and goes on.
pub fn serve_two<W: Write>(alloc: Global, output: &mut W) -> Result<(), Fault> {
    let mut hub = Hub::new(alloc);
    meet(alloc, &mut hub, output)
}

/// Two users come, both ask, the first gives the floor back, and the second goes.
fn meet<W: Write>(alloc: Global, hub: &mut Hub, output: &mut W) -> Result<(), Fault> {
    open(alloc, hub)?;
    let first = attach(alloc, hub, 10, output)?;
    let second = attach(alloc, hub, 11, output)?;
    receive(alloc, hub, first, &REQUEST, output)?;
    ask_in_pieces(alloc, hub, second, output)?;
    receive(alloc, hub, first, &RELEASE, output)?;
    leave(alloc, hub, second, output)
}

/// A message comes in two pieces.
fn ask_in_pieces<W: Write>(
    alloc: Global,
    hub: &mut Hub,
    connection: ConnNo,
    output: &mut W,
) -> Result<(), Fault> {
    receive(alloc, hub, connection, &ANOTHER[..5], output)?;
    receive(alloc, hub, connection, &ANOTHER[5..], output)
}

/// Opens a conference.
fn open(alloc: Global, hub: &mut Hub) -> Result<(), Fault> {
    let config = Config::demonstration(alloc)?;
    hub.open(alloc, config)?;
    Ok(())
}

/// Attaches a connection of a user to conference 1.
fn attach<W: Write>(
    alloc: Global,
    hub: &mut Hub,
    user: u16,
    output: &mut W,
) -> Result<ConnNo, Fault> {
    let connection = hub.attach(alloc, 1, user)?;
    tell(alloc, hub, output)?;
    Ok(connection)
}

/// A connection was shut down. What waits for it can't be had any more.
fn leave<W: Write>(
    alloc: Global,
    hub: &mut Hub,
    connection: ConnNo,
    output: &mut W,
) -> Result<(), Fault> {
    hub.leave(connection)?;
    tell(alloc, hub, output)
}

/// Hands in the bytes that a connection gave, and serves each message that is whole with them.
fn receive<W: Write>(
    alloc: Global,
    hub: &mut Hub,
    connection: ConnNo,
    bytes: &[u8],
    output: &mut W,
) -> Result<(), Fault> {
    hub.piece(connection, bytes)?;
    for _ in 0..=bytes.len() / HEADER_LEN {
        if serve(alloc, hub, connection, output)? == Served::Nothing {
            break;
        }
    }
    Ok(())
}

/// Serves the next message of a connection, if one is whole, and sends what that tells.
fn serve<W: Write>(
    alloc: Global,
    hub: &mut Hub,
    connection: ConnNo,
    output: &mut W,
) -> Result<Served, Fault> {
    let served = hub.serve(connection)?;
    tell(alloc, hub, output)?;
    Ok(served)
}

/// Sends what waits for those that the last call concerned: nobody else has anything new. The list is
/// copied, since each acknowledgement is a call, too.
fn tell<W: Write>(alloc: Global, hub: &mut Hub, output: &mut W) -> Result<(), Fault> {
    let concerned = Vec::from_slice(alloc, hub.concerned())?;
    for connection in &concerned {
        send(alloc, hub, *connection, output)?;
    }
    Ok(())
}

/// Sends all that waits for a connection, as one piece, and acknowledges it. A member that is cut is
/// told nothing more: once this is sent, a bridge shuts its connection down.
fn send<W: Write>(
    alloc: Global,
    hub: &mut Hub,
    connection: ConnNo,
    output: &mut W,
) -> Result<(), Fault> {
    let mut bytes = Vec::new(alloc);
    let parcels = take(hub, connection, &mut bytes)?;
    print(alloc, connection, bytes.as_slice(), output)?;
    acknowledge(hub, connection, parcels)?;
    if hub.is_cut(connection) {
        writeln!(output, "{connection} is cut")?;
    }
    Ok(())
}

/// Puts all that waits for a connection into a buffer, and says how many parcels that were.
fn take(hub: &mut Hub, connection: ConnNo, buffer: &mut Vec<u8>) -> Result<u32, HubRefusal> {
    let mut parcels = 0u32;
    for _ in 0..u64::MAX {
        if !hub.take_into(connection, buffer)? {
            break;
        }
        parcels = parcels.saturating_add(1);
    }
    Ok(parcels)
}

/// Acknowledges so many parcels, if there are any: whoever is more than 1,024 messages behind is cut.
fn acknowledge(hub: &mut Hub, connection: ConnNo, parcels: u32) -> Result<(), HubRefusal> {
    if 0 < parcels {
        hub.took(connection, parcels)?;
    }
    Ok(())
}

/// Prints what a connection is sent, where a bridge has a socket.
fn print<W: Write>(
    alloc: Global,
    connection: ConnNo,
    bytes: &[u8],
    output: &mut W,
) -> Result<(), Fault> {
    let bytes = hex::encode(alloc, bytes)?;
    writeln!(output, "{connection} {}", bytes.as_str())?;
    Ok(())
}
