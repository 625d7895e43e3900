//! The header by which a gateway says by a unique-id whom it connects for.

ghost use Rattle.std.specs.Prelude.{◌≡◌, ◌≤◌, IfOk, length, string_bytes};
ghost use Rattle.floor_proxy.specs.Laws.{header_bytes, name_bytes};
ghost use Rattle.floor_proxy.specs.UniqueId.{by_unique_id};

use crate::header::{HEAD_LEN, PROXY, SIGNATURE, UNIQUE_ID};
use std::alloc::{AllocError, Global};

/// How many bytes of a TLV stand before its value.
const TLV_LEN: u16 = 3;

/// The header of the command PROXY without addresses, whose unique-id names this user of this conference:
/// `read_proxy` reads it back by the unique-id (`headers_are_read`, `names_are_read_back`).
pub fn unique_id_header(alloc: Global, conference: u32, user: u16) -> Result<Vec<u8>, AllocError>
    ensures value { IfOk result (λ header. header.items ≡ header_bytes (by_unique_id
        (name_bytes record { conference = conference; user = user }))) }
{
    let name = name_text(alloc, conference, user)?;
    header_of(alloc, name.as_bytes())
}

/// The name of a user of a conference.
fn name_text(alloc: Global, conference: u32, user: u16) -> Result<String, AllocError>
    ensures value { IfOk result (λ name. string_bytes name
        ≡ name_bytes record { conference = conference; user = user }) }
    ensures short { IfOk result (λ name. length (string_bytes name) ≤ 16) }
{
    format!(in alloc; "{conference}.{user}")
}

/// The header with this unique-id.
fn header_of(alloc: Global, name: &[u8]) -> Result<Vec<u8>, AllocError>
    requires short { length name.now ≤ 16 }
    ensures value { IfOk result (λ header. header.items
        ≡ header_bytes (by_unique_id name.now)) }
{
    let len = name.len() as u16;
    let mut header = Vec::with_capacity(alloc, HEAD_LEN + usize::from(TLV_LEN) + name.len())?;
    header.extend_from_slice(&SIGNATURE)?;
    header.push(PROXY)?;
    header.push(0)?;
    header.extend_from_slice(&(TLV_LEN + len).to_be_bytes())?;
    header.push(UNIQUE_ID)?;
    header.extend_from_slice(&len.to_be_bytes())?;
    header.extend_from_slice(name)?;
    Ok(header)
}
