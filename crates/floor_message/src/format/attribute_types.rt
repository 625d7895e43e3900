//! Types of attributes, each in the upper 7 bits of a byte (RFC 8855, sections 5.2.6.1 and 5.2.10).

ghost use Rattle.std.specs.Prelude.{◌≡◌, IfOk, ◌<◌, ◌*◌, All, map, ◌↔◌, IsTrue, ◌/◌};

use std::alloc::{AllocError, Global};

/// The types that stand in the upper 7 bits of these bytes.
pub(crate) fn halved(alloc: Global, bytes: &[u8]) -> Result<Vec<u8>, AllocError>
    ensures { IfOk result (λ v. v.items ≡ map (λ b. b / 2) bytes.now) }
{
    bytes.iter().map(|byte| *byte / 2).collect(alloc)
}

/// The types, each in the upper 7 bits of a byte.
pub(crate) fn doubled(alloc: Global, types: &[u8]) -> Result<Vec<u8>, AllocError>
    requires { All (λ t. t < 128) types.now }
    ensures { IfOk result (λ v. v.items ≡ map (λ k. 2 * k) types.now) }
{
    let mut bytes = Vec::with_capacity(alloc, types.len())?;
    for kind in types {
        bytes.push(2 * *kind)?;
    }
    Ok(bytes)
}

/// Whether each type has 7 bits.
pub(crate) fn types_fit(types: &[u8]) -> bool
    ensures { IsTrue result ↔ All (λ kind. kind < 128) types.now }
{
    types.iter().all(|kind| *kind < 128)
}
