//! The floor requests of its own that a user has ongoing (RFC 8855, sections 5.2.5 and 13.1.2).

ghost use Rattle.std.specs.Prelude.{◌≡◌, ◌<◌, length, IfSome, OnOk};
ghost use Rattle.floor_datagram.specs.Own as spec;

use crate::notices::is_same_subject;
use crate::requests::is_last;
use floor_wire::Frame;
use std::alloc::{AllocError, Global};

/// The primitive of a FloorRequest.
const FLOOR_REQUEST: u8 = 1;

/// The primitive of a FloorRequestStatus.
const FLOOR_REQUEST_STATUS: u8 = 4;

/// At which byte of a FloorRequestStatus the status of its floor request stands.
const STATUS_AT: usize = 22;

/// Keeps the message, if it tells of an own ongoing request, in place of the one before; drops that one,
/// if it tells that the request has ended.
pub(crate) fn note(
    alloc: Global,
    last: Option<u16>,
    asked: u8,
    own: &mut Vec<Frame>,
    message: &Frame,
) -> Result<(), AllocError>
    ensures { OnOk result (own.new.items ≡ spec.own_after last asked own.old.items message.now) }
{
    if !has_status(message.bytes()) {
        return Ok(());
    }
    let place = place_in(own, message);
    if !is_own(last, asked, place, message) {
        return Ok(());
    }
    if is_ongoing(message.bytes()) {
        let copy = message.copy(alloc)?;
        remove(own, place);
        own.push(copy)?;
    } else {
        remove(own, place);
    }
    Ok(())
}

/// Whether it is a FloorRequestStatus with a status.
fn has_status(message: &[u8]) -> bool
    ensures { result ≡ spec.has_status message.now }
{
    message.len() > STATUS_AT && message[1] == FLOOR_REQUEST_STATUS
}

/// Whether the status is Pending, Accepted or Granted.
fn is_ongoing(message: &[u8]) -> bool
    ensures { result ≡ spec.is_ongoing message.now }
{
    message.len() <= STATUS_AT || message[STATUS_AT] < 4
}

/// Where the message of the same floor request stands.
fn place_in(own: &Vec<Frame>, message: &Frame) -> Option<usize>
    ensures value { result ≡ spec.place_in message.now own.now.items }
    ensures fits { IfSome result (λ place. place < length own.now.items) }
{
    own.iter().position(|other| is_same_subject(message, other))
}

/// Whether it tells of a request of the user's own.
fn is_own(last: Option<u16>, asked: u8, place: Option<usize>, message: &Frame) -> bool
    ensures { result ≡ spec.is_own_at last asked place message.now }
{
    let id = message.header().transaction();
    id == 0 || place.is_some() || (is_last(last, id) && asked == FLOOR_REQUEST)
}

fn remove(own: &mut Vec<Frame>, place: Option<usize>)
    requires { IfSome place (λ place. place < length own.old.items) }
    ensures { own.new.items ≡ spec.removed place own.old.items }
{
    match place {
        None => {}
        Some(place) => {
            let _ = own.remove(place);
        }
    }
}
