//! What peers say, as bytes.

use crate::happening::Message;
use floor_turn::NamedBy;
use std::alloc::{AllocError, Global};

/// What each header of the PROXY protocol, version 2, begins with (proxy-protocol.txt, section 2.2).
const SIGNATURE: &[u8; 12] = b"\r\n\r\n\0\r\nQUIT\n";

/// In whose name a message is sent, how a header names users, and the Transaction ID.
#[derive(Clone, Copy, Debug)]
pub struct Binding {
    pub named_by: NamedBy,
    pub conference: u32,
    pub user: u16,
    pub transaction: u16,
}

/// Puts what is said behind what was said.
pub fn say(
    alloc: Global,
    said: &mut Vec<u8>,
    binding: Binding,
    message: Message,
) -> Result<(), AllocError> {
    match message {
        Message::Hello => put(said, binding, 11, &[]),
        Message::Request(floor) => put(said, binding, 1, &attribute(0x04, floor)),
        Message::Release(request) => put(said, binding, 2, &attribute(0x06, request)),
        Message::Watch(floor) => put(said, binding, 7, &attribute(0x04, floor)),
        Message::Grant(request) => put(said, binding, 9, &verdict(request, 3)),
        Message::Refuse(request) => put(said, binding, 9, &verdict(request, 4)),
        Message::Long(units) => long(alloc, said, binding, units),
        Message::Bytes(bytes) => said.extend_from_slice(&bytes.to_be_bytes()),
        Message::Header { conference, user } => {
            let name = format!(in alloc; "{conference}.{user}")?;
            header(alloc, said, binding.named_by, name.as_bytes())
        }
        Message::Local => begin(said, 0x20, &[]),
        Message::Broken => said.extend_from_slice(b"\r\n\r\n\0\rxQUIT\n"),
        Message::Nameless => begin(said, 0x21, &[]),
    }
}

/// An attribute of a number (RFC 8855, sections 5.2.2 and 5.2.3), by the byte that has its type.
fn attribute(kind: u8, number: u16) -> [u8; 4] {
    let [high, low] = number.to_be_bytes();
    [kind, 4, high, low]
}

/// A FLOOR-REQUEST-INFORMATION with the status that floor 3 is to have (sections 5.2.15 and 5.2.17).
fn verdict(request: u16, status: u8) -> [u8; 12] {
    let [high, low] = request.to_be_bytes();
    [0x1e, 12, high, low, 0x22, 8, 0, 3, 0x0a, 4, status, 0]
}

/// A message of a primitive, behind the header of section 5.1.
fn put(
    said: &mut Vec<u8>,
    binding: Binding,
    primitive: u8,
    payload: &[u8],
) -> Result<(), AllocError> {
    said.extend_from_slice(&[0x20, primitive])?;
    said.extend_from_slice(&((payload.len() / 4) as u16).to_be_bytes())?;
    said.extend_from_slice(&binding.conference.to_be_bytes())?;
    said.extend_from_slice(&binding.transaction.to_be_bytes())?;
    said.extend_from_slice(&binding.user.to_be_bytes())?;
    said.extend_from_slice(payload)
}

fn long(alloc: Global, said: &mut Vec<u8>, binding: Binding, units: u16) -> Result<(), AllocError> {
    let mut payload = Vec::new(alloc);
    for _ in 0..units {
        payload.extend_from_slice(&[0xc0, 4, 0, 0])?;
    }
    put(said, binding, 11, payload.as_slice())
}

/// A header with a name, as a door has it that names users by this.
fn header(
    alloc: Global,
    said: &mut Vec<u8>,
    named_by: NamedBy,
    name: &[u8],
) -> Result<(), AllocError> {
    let mut value = Vec::new(alloc);
    match named_by {
        NamedBy::UniqueId => tlv(&mut value, 0x05, name)?,
        NamedBy::Certificate => {
            let mut session = Vec::new(alloc);
            session.extend_from_slice(&[5, 0, 0, 0, 0])?;
            tlv(&mut session, 0x22, name)?;
            tlv(&mut value, 0x20, session.as_slice())?;
        }
    }
    begin(said, 0x21, value.as_slice())
}

/// The front of a header and its TLVs, without addresses.
fn begin(said: &mut Vec<u8>, command: u8, value: &[u8]) -> Result<(), AllocError> {
    said.extend_from_slice(SIGNATURE.as_slice())?;
    said.extend_from_slice(&[command, 0])?;
    said.extend_from_slice(&(value.len() as u16).to_be_bytes())?;
    said.extend_from_slice(value)
}

fn tlv(bytes: &mut Vec<u8>, kind: u8, value: &[u8]) -> Result<(), AllocError> {
    bytes.push(kind)?;
    bytes.extend_from_slice(&(value.len() as u16).to_be_bytes())?;
    bytes.extend_from_slice(value)
}
