//! The message around a payload.

ghost use Rattle.std.specs.Prelude.{◌≡◌, ◌/◌, ◌++◌, IfOk, length, min};
ghost use Rattle.floor_wire.specs.Header.{header_bytes};

use std::alloc::{AllocError, Global};

/// The bytes of a message of conference 1 and user 10 (RFC 8855, section 5.1). The Payload Length
/// is that of the payload, in 4-byte words, or the greatest that there is.
pub fn message(
    alloc: Global,
    primitive: u8,
    transaction: u8,
    payload: &[u8],
) -> Result<Vec<u8>, AllocError>
    ensures value { IfOk result (λ message. message.items
        ≡ header_bytes primitive (min (length payload.now / 4) 65535) 1 transaction 10
        ++ payload.now) }
{
    let units = (payload.len() / 4).min(65535) as u16;
    let mut message = Vec::from_slice(alloc, &[0x20, primitive])?;
    message.extend_from_slice(&units.to_be_bytes())?;
    message.extend_from_slice(&[0, 0, 0, 1, 0, transaction, 0, 10])?;
    message.extend_from_slice(payload)?;
    Ok(message)
}
