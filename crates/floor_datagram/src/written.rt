//! What a session writes (RFC 8855, sections 5.1, 5.2.6 and 6.2.3).

ghost use Rattle.std.specs.Prelude.{◌≡◌, ◌≤◌, ◌<◌, ◌+◌, ◌*◌, ◌-◌, ◌/◌, ◌^◌, ◌++◌, [], ◌∷◌, length, take, drop, slice_index, IfOk, OnOk, OnErr};
ghost use Rattle.floor_datagram.specs.Written as spec;

use bytes::Bytes;
use floor_wire::{Frame, FrameBuilder, HEADER_LEN};
use std::alloc::{AllocError, Global};

/// The first byte of version 1, with R, F and the reserved bits clear.
const VERSION_1: u8 = 0x20;

/// The first byte of version 2, with R, F and the reserved bits clear.
const VERSION_2: u8 = 0x40;

/// The primitive of a Goodbye.
const GOODBYE: u8 = 16;

/// The R bit, which a response has set, in a message's first byte.
const RESPONDS: u8 = 0x10;

/// The F bit, which a fragment has set, in a message's first byte.
const IS_FRAGMENT: u8 = 8;

/// The error code of a message that isn't as long as it says: Incorrect Message Length.
pub const INCORRECT_LENGTH: u8 = 13;

/// The shortest limit of a datagram, in bytes: what every network carries (RFC 8855, section 6.2.3).
pub const MIN_DATAGRAM_LEN: usize = 576;

/// The longest limit of a datagram, in bytes.
pub const MAX_DATAGRAM_LEN: usize = 8192;

/// Adds a request to what the server is sent. After an error nothing is added.
pub(crate) fn lower(message: &[u8], up: &mut Vec<u8>) -> Result<(), AllocError>
    requires { 12 ≤ length message.now }
    ensures out { OnOk result (up.new.items ≡ up.old.items ++ spec.lowered message.now) }
    ensures left { OnErr result (up.new.items ≡ up.old.items) }
{
    let at = up.len();
    up.extend_from_slice(message)?;
    up[at] = VERSION_1;
    Ok(())
}

/// The Error with this code that answers a datagram.
pub fn error(alloc: Global, code: u8, datagram: &[u8]) -> Result<Bytes, AllocError>
    requires { 12 ≤ length datagram.now }
    ensures value { IfOk result (λ error. error ≡ spec.error code datagram.now) }
{
    let mut bytes = Vec::with_capacity(alloc, HEADER_LEN + 4)?;
    bytes.extend_from_slice(&[VERSION_2 + RESPONDS, 13, 0, 1])?;
    bytes.extend_from_slice(&datagram[4..HEADER_LEN])?;
    bytes.extend_from_slice(&[12, 3, code, 0])?;
    Ok(Bytes::from_vec(bytes)?)
}

/// A Goodbye of the server's.
pub(crate) fn goodbye(alloc: Global, conference: u32, user: u16) -> Result<Frame, AllocError>
    ensures value { IfOk result (λ goodbye. goodbye ≡ spec.goodbye_to conference user) }
{
    let message = FrameBuilder::new(alloc, GOODBYE, conference, 0, user, 0)?;
    Ok(message.finish()?)
}

/// The Error 14 to a request with these IDs, which no server serves.
pub(crate) fn refusal(
    alloc: Global,
    conference: u32,
    id: u16,
    user: u16,
) -> Result<Bytes, AllocError>
    ensures value { IfOk result (λ error. error ≡ spec.refusal conference id user) }
{
    let mut bytes = Vec::with_capacity(alloc, HEADER_LEN + 4)?;
    bytes.extend_from_slice(&[VERSION_2 + RESPONDS, 13, 0, 1])?;
    bytes.extend_from_slice(&conference.to_be_bytes())?;
    bytes.extend_from_slice(&id.to_be_bytes())?;
    bytes.extend_from_slice(&user.to_be_bytes())?;
    bytes.extend_from_slice(&[12, 3, 14, 0])?;
    Ok(Bytes::from_vec(bytes)?)
}

/// The GoodbyeAck that answers a Goodbye.
pub fn goodbye_ack(alloc: Global, goodbye: &[u8]) -> Result<Bytes, AllocError>
    requires { 12 ≤ length goodbye.now }
    ensures value { IfOk result (λ ack. ack ≡ spec.goodbye_ack goodbye.now) }
{
    let mut bytes = Vec::with_capacity(alloc, HEADER_LEN)?;
    bytes.extend_from_slice(&[VERSION_2 + RESPONDS, 17, 0, 0])?;
    bytes.extend_from_slice(&goodbye[4..HEADER_LEN])?;
    Ok(Bytes::from_vec(bytes)?)
}

/// A message of the server's in version 2, with R set where it responds, and with this Transaction ID.
pub(crate) fn raise(
    alloc: Global,
    responds: bool,
    id: u16,
    message: &[u8],
) -> Result<Vec<u8>, AllocError>
    requires { 12 ≤ length message.now }
    ensures value { IfOk result (λ raised. raised.items ≡ spec.raised responds id message.now) }
{
    let mut bytes = Vec::with_capacity(alloc, message.len())?;
    bytes.push(first_byte(responds))?;
    bytes.extend_from_slice(&message[1..8])?;
    bytes.extend_from_slice(&id.to_be_bytes())?;
    bytes.extend_from_slice(&message[10..])?;
    Ok(bytes)
}

fn first_byte(responds: bool) -> u8
    ensures { result ≡ spec.first_byte responds }
{
    if responds {
        VERSION_2 + RESPONDS
    } else {
        VERSION_2
    }
}

/// The datagrams of a message, of so many bytes at most.
pub(crate) fn pieces(alloc: Global, limit: usize, message: &[u8]) -> Result<Vec<Bytes>, AllocError>
    requires header { 12 ≤ length message.now }
    requires first { slice_index message.now 0 < 248 }
    requires fits { length message.now ≤ 262152 }
    requires limit { 20 ≤ limit }
    requires small { limit < 2 ^ 32 }
    ensures value { IfOk result (λ pieces. pieces.items ≡ spec.pieces limit message.now) }
{
    let mut pieces = Vec::new(alloc);
    if message.len() <= limit {
        pieces.push(Bytes::copy_from_slice(alloc, message)?)?;
        return Ok(pieces);
    }
    put_fragments(alloc, (limit - 16) / 4, message, &mut pieces)?;
    Ok(pieces)
}

/// Adds the fragments of a message, each of so many units at most.
fn put_fragments(
    alloc: Global,
    units: usize,
    message: &[u8],
    pieces: &mut Vec<Bytes>,
) -> Result<(), AllocError>
    requires header { 12 ≤ length message.now }
    requires first { slice_index message.now 0 < 248 }
    requires fits { length message.now ≤ 262152 }
    requires some { 0 < units }
    requires small { units < 2 ^ 32 }
    ensures { OnOk result (pieces.new.items ≡ pieces.old.items ++ spec.fragments units message.now) }
{
    let count = fragments_in(units, message.len());
    for place in 0..count {
        let offset = offset_at(units, message.len(), place);
        pieces.push(fragment_from(alloc, units, offset, message)?)?;
    }
    Ok(())
}

/// How many fragments of so many units a message of that many bytes takes.
fn fragments_in(units: usize, len: usize) -> usize
    requires header { 12 ≤ len }
    requires some { 0 < units }
    requires fits { len ≤ 262152 }
    requires small { units < 2 ^ 32 }
    ensures { result ≡ spec.fragments_in units len }
{
    ((len - 12) / 4 + (units - 1)) / units
}

/// The unit at which a fragment begins.
fn offset_at(units: usize, len: usize, place: usize) -> u16
    requires some { 0 < units }
    requires fits { len ≤ 262152 }
    requires below { place < spec.fragments_in units len }
    ensures value { result ≡ units * place }
    ensures range { 12 + 4 * result ≤ len }
{
    (units * place) as u16
}

/// The fragment of a message that carries its payload from this unit on.
fn fragment_from(
    alloc: Global,
    units: usize,
    offset: u16,
    message: &[u8],
) -> Result<Bytes, AllocError>
    requires header { 12 ≤ length message.now }
    requires first { slice_index message.now 0 < 248 }
    requires fits { length message.now ≤ 262152 }
    requires range { 12 + 4 * offset ≤ length message.now }
    ensures value { IfOk result (λ fragment. fragment
        ≡ spec.fragment_from units offset message.now) }
{
    let body = first_units(&message[HEADER_LEN + 4 * usize::from(offset)..], units);
    let mut bytes = Vec::with_capacity(alloc, 16 + body.len())?;
    bytes.push(message[0] + IS_FRAGMENT)?;
    bytes.extend_from_slice(&message[1..HEADER_LEN])?;
    bytes.extend_from_slice(&offset.to_be_bytes())?;
    bytes.extend_from_slice(&((body.len() / 4) as u16).to_be_bytes())?;
    bytes.extend_from_slice(body)?;
    Ok(Bytes::from_vec(bytes)?)
}

/// So many units of 4 bytes from the front on, or all.
fn first_units(bytes: &[u8], units: usize) -> &[u8]
    requires { length bytes.now ≤ 262152 }
    ensures { result.now ≡ take (4 * units) bytes.now }
{
    if units <= bytes.len() / 4 {
        &bytes[..4 * units]
    } else {
        bytes
    }
}
