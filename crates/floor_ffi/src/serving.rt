//! Connections: attached, served, acknowledged, ended.

ghost use Rattle.std.specs.Prelude.{◌≡◌};
ghost use Rattle.floor_ffi.specs.Gives.{AttachGives, CutGives, LeaveGives, PieceGives, ServeGives, TookGives, is_own};
ghost use Rattle.floor_ffi.specs.Numbers.{number_of};

use crate::answers::{FloorAttached, FloorServed};
use crate::opening::outcome_of;
use crate::outcome::Outcome;
use floor_hub::{Hub, Served};
use std::alloc::Global;

/// Attaches a connection of a user.
pub(crate) fn attach(hub: &mut Hub, alloc: Global, conference: u32, user: u16) -> FloorAttached
    ensures gives { AttachGives hub.old conference user hub.new result.result result.connection }
{
    match hub.attach(alloc, conference, user) {
        Ok(connection) => FloorAttached {
            result: Outcome::Done.number(),
            connection,
        },
        Err(refusal) => FloorAttached {
            result: Outcome::Refused(refusal).number(),
            connection: 0,
        },
    }
}

/// Takes bytes that came from a connection.
pub(crate) fn piece(hub: &mut Hub, connection: u64, bytes: &[u8]) -> u32
    ensures gives { PieceGives hub.old connection bytes.now hub.new result }
{
    outcome_of(hub.piece(connection, bytes)).number()
}

/// Serves messages of a connection, `most` at most, up to the first that concerns others too: whom the
/// hub's last call concerned and the connection itself are then all that any of these calls concerned.
pub(crate) fn serve(hub: &mut Hub, connection: u64, most: u32) -> FloorServed
    ensures gives { ServeGives hub.old connection most hub.new result.result result.served }
{
    for served in 0..most {
        match hub.serve(connection) {
            Ok(Served::Message) => {
                if !is_own(connection, hub.concerned()) {
                    return ended(Outcome::Done, served + 1);
                }
            }
            Ok(Served::Nothing) => return ended(Outcome::Nothing, served),
            Err(refusal) => return ended(Outcome::Refused(refusal), served),
        }
    }
    ended(Outcome::Done, most)
}

/// Serving has ended, after so many messages.
fn ended(outcome: Outcome, served: u32) -> FloorServed
    ensures value { result ≡ record { result = number_of outcome; served = served } }
{
    FloorServed {
        result: outcome.number(),
        served,
    }
}

/// Whether nobody but this connection is concerned.
fn is_own(connection: u64, concerned: &[u64]) -> bool
    ensures value { result ≡ is_own connection concerned.now }
{
    concerned.iter().all(|number| connection == *number)
}

/// Takes it that so many parcels to a connection were brought to their end.
pub(crate) fn took(hub: &mut Hub, connection: u64, count: u32) -> u32
    ensures gives { TookGives hub.old connection count hub.new result }
{
    outcome_of(hub.took(connection, count)).number()
}

/// Ends a connection.
pub(crate) fn leave(hub: &mut Hub, connection: u64) -> u32
    ensures gives { LeaveGives hub.old connection hub.new result }
{
    outcome_of(hub.leave(connection)).number()
}

/// Whether the member of a connection is cut.
pub(crate) fn is_cut(hub: &mut Hub, connection: u64) -> bool
    ensures gives { CutGives hub.old connection hub.new result }
{
    hub.is_cut(connection)
}
