//! ERROR-CODE: an error code with its details (RFC 8855, section 5.2.6).

ghost use Rattle.std.specs.Prelude.{◌≡◌, ◌∷◌, [], IfOk, OnOk};
ghost use Rattle.floor_message.specs.Tell.{tell_of};
ghost use Rattle.floor_message.specs.Written as spec;
ghost use Rattle.floor_message.specs.declared.primitive.Primitive.TheVariants as primitive;
ghost use Rattle.floor_message.specs.steps.Leaves.{Leaves};
ghost use Rattle.floor_message.specs.steps.Writing.{with_attrs};
ghost use Rattle.floor_wire.specs.Spelling.{IsWritable};
ghost use Rattle.floor_wire.specs.View.{attributes_of};

use crate::format::octets::{MOST_OCTETS, after_octets, first_octets};
use crate::kind::ERROR_CODE;
use crate::tell::Tell;
use floor_wire::{AttrsView, FrameBuilder, Octets, a_slice_is_of_bytes};
use std::alloc::{AllocError, Global};

/// What an Error tells, where its ERROR-CODE is there and has a code.
pub(crate) fn error(alloc: Global, attrs: &AttrsView) -> Result<Option<Tell>, AllocError>
    ensures { IfOk result (λ told. told ≡ tell_of primitive.Error attrs.now) }
{
    match first_octets(attrs, ERROR_CODE) {
        Some([code, details @ ..]) => Ok(Some(Tell::Error {
            code: *code,
            details: Octets::from_vec(Vec::from_slice(alloc, details)?),
        })),
        Some([]) => Ok(None),
        None => Ok(None),
    }
}

/// Adds ERROR-CODE.
pub(crate) fn put_error(out: &mut FrameBuilder, code: u8, details: &[u8]) -> Result<(), AllocError>
    requires { IsWritable (attributes_of (spec.octets ERROR_CODE (code ∷ details.now) ∷ [])) }
    ensures { OnOk result (out.new
        ≡ with_attrs out.old (spec.octets ERROR_CODE (code ∷ details.now) ∷ [])) }
{
    out.put_two(ERROR_CODE, &[code], details)
}

/// What is left of the room behind an ERROR-CODE.
pub(crate) fn after_error(room: usize, code: u8, details: &[u8]) -> Option<usize>
    ensures { Leaves (spec.octets ERROR_CODE (code ∷ details.now) ∷ []) room result }
{
    a_slice_is_of_bytes(details);
    if details.len() >= MOST_OCTETS {
        return None;
    }
    after_octets(room, 1 + details.len())
}
