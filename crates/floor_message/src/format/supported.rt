//! SUPPORTED-PRIMITIVES and SUPPORTED-ATTRIBUTES (RFC 8855, sections 5.2.10 and 5.2.11).

ghost use Rattle.std.specs.Prelude.{◌≡◌, ◌<◌, ◌*◌, ◌∷◌, [], All, map, IfOk, OnOk};
ghost use Rattle.floor_message.specs.Tell.{tell_of};
ghost use Rattle.floor_message.specs.Written as spec;
ghost use Rattle.floor_message.specs.declared.primitive.Primitive.TheVariants as primitive;
ghost use Rattle.floor_message.specs.steps.Leaves.{Leaves};
ghost use Rattle.floor_message.specs.steps.Writing.{with_attrs};
ghost use Rattle.floor_wire.specs.Spelling.{IsWritable};
ghost use Rattle.floor_wire.specs.View.{attributes_of};

use crate::format::attribute_types::halved;
use crate::format::octets::{after_octets, first_octets};
use crate::kind::{SUPPORTED_ATTRIBUTES, SUPPORTED_PRIMITIVES};
use crate::tell::Tell;
use floor_wire::{AttrsView, FrameBuilder, Octets, a_slice_is_of_bytes};
use std::alloc::{AllocError, Global};

/// What a HelloAck tells, where both lists are there.
pub(crate) fn hello_ack(alloc: Global, attrs: &AttrsView) -> Result<Option<Tell>, AllocError>
    ensures { IfOk result (λ told. told ≡ tell_of primitive.HelloAck attrs.now) }
{
    let Some(primitives) = first_octets(attrs, SUPPORTED_PRIMITIVES) else {
        return Ok(None);
    };
    let Some(types) = first_octets(attrs, SUPPORTED_ATTRIBUTES) else {
        return Ok(None);
    };
    Ok(Some(Tell::HelloAck {
        primitives: Octets::from_vec(Vec::from_slice(alloc, primitives)?),
        attributes: Octets::from_vec(halved(alloc, types)?),
    }))
}

/// Adds both lists.
pub(crate) fn put_supported(
    out: &mut FrameBuilder,
    primitives: &[u8],
    types: &[u8],
) -> Result<(), AllocError>
    requires range { All (λ kind. kind < 128) types.now }
    requires writable { IsWritable (attributes_of (spec.octets SUPPORTED_PRIMITIVES primitives.now
        ∷ spec.octets SUPPORTED_ATTRIBUTES (map (λ k. 2 * k) types.now) ∷ [])) }
    ensures { OnOk result (out.new
        ≡ with_attrs out.old (spec.octets SUPPORTED_PRIMITIVES primitives.now
        ∷ spec.octets SUPPORTED_ATTRIBUTES (map (λ k. 2 * k) types.now) ∷ [])) }
{
    out.put_octets(SUPPORTED_PRIMITIVES, primitives)?;
    out.put_types(SUPPORTED_ATTRIBUTES, types)
}

/// What is left of the room behind both lists.
pub(crate) fn after_supported(room: usize, primitives: &[u8], types: &[u8]) -> Option<usize>
    requires { All (λ kind. kind < 128) types.now }
    ensures { Leaves (spec.octets SUPPORTED_PRIMITIVES primitives.now
        ∷ spec.octets SUPPORTED_ATTRIBUTES (map (λ k. 2 * k) types.now) ∷ []) room result }
{
    a_slice_is_of_bytes(primitives);
    let room = after_octets(room, primitives.len())?;
    after_octets(room, types.len())
}
