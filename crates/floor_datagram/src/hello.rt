//! The HelloAck of version 2, which lists the primitives of version 2 too (RFC 8855, sections 5.2.10 and 13.7).

ghost use Rattle.std.specs.Prelude.{◌≡◌, ◌≤◌, ◌+◌, ◌<◌, length, take, drop, slice_index, IfOk, IsTrue};
ghost use Rattle.floor_datagram.specs.HelloAck as spec;
ghost use Rattle.floor_wire.specs.Message.{message_len};

use crate::kind::number_at;
use std::alloc::{AllocError, Global};

/// The primitive of a HelloAck.
const HELLO_ACK: u8 = 12;

/// The type of SUPPORTED-PRIMITIVES.
const SUPPORTED_PRIMITIVES: u8 = 11;

/// FloorRequestStatusAck, FloorStatusAck, Goodbye and GoodbyeAck.
const OF_VERSION_2: [u8; 4] = [14, 15, 16, 17];

/// A message of the server's; a HelloAck lists the primitives of version 2 behind the server's.
pub(crate) fn extend(alloc: Global, message: &[u8]) -> Result<Vec<u8>, AllocError>
    requires long { 12 ≤ length message.now }
    requires fits { length message.now ≤ 262152 }
    ensures value { IfOk result (λ m. m.items ≡ spec.extended message.now) }
    ensures header { IfOk result (λ m. 12 ≤ length m.items) }
    ensures fits { IfOk result (λ m. length m.items ≤ 262156) }
{
    if lists_primitives(message) {
        put_primitives(alloc, message)
    } else {
        Vec::from_slice(alloc, message)
    }
}

/// Whether it is a HelloAck that begins with SUPPORTED-PRIMITIVES, which has room for four more.
fn lists_primitives(message: &[u8]) -> bool
    requires { 12 ≤ length message.now }
    ensures { result ≡ spec.lists_primitives message.now }
{
    message[1] == HELLO_ACK
        && message.len() >= 14
        && message[12] / 2 == SUPPORTED_PRIMITIVES
        && message[13] >= 2
        && message[13] < 252
        && message.len() >= 12 + usize::from(message[13])
        && number_at(message, 2) < 65_535
}

/// The same HelloAck with the primitives of version 2.
fn put_primitives(alloc: Global, message: &[u8]) -> Result<Vec<u8>, AllocError>
    requires lists { IsTrue (spec.lists_primitives message.now) }
    requires fits { length message.now ≤ 262152 }
    ensures value { IfOk result (λ m. m.items ≡ spec.extended message.now) }
    ensures header { IfOk result (λ m. 12 ≤ length m.items) }
    ensures fits { IfOk result (λ m. length m.items ≤ 262156) }
{
    let units = number_at(message, 2) + 1;
    let end = 12 + usize::from(message[13]);
    let mut bytes = Vec::with_capacity(alloc, message.len() + OF_VERSION_2.len())?;
    bytes.extend_from_slice(&message[..2])?;
    bytes.extend_from_slice(&units.to_be_bytes())?;
    bytes.extend_from_slice(&message[4..13])?;
    bytes.push(message[13] + 4)?;
    bytes.extend_from_slice(&message[14..end])?;
    bytes.extend_from_slice(&OF_VERSION_2)?;
    bytes.extend_from_slice(&message[end..])?;
    Ok(bytes)
}
