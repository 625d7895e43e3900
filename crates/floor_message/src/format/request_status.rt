//! REQUEST-STATUS: a status and a queue position (RFC 8855, section 5.2.5).

ghost use Rattle.std.specs.Prelude.{◌≡◌, OnOk};
ghost use Rattle.floor_message.specs.Fields.{status_in};
ghost use Rattle.floor_message.specs.Written as spec;
ghost use Rattle.floor_message.specs.steps.Leaves.{Leaves};
ghost use Rattle.floor_message.specs.steps.Writing.{with_attrs};

use crate::format::attributes::SHORT_ATTRIBUTE;
use crate::format::pair::first_pair;
use crate::kind::REQUEST_STATUS;
use floor_wire::{AttrsView, FrameBuilder};
use std::alloc::AllocError;

/// The status in the first REQUEST-STATUS.
pub(crate) fn status_in(inside: &AttrsView) -> Option<u8>
    ensures { result ≡ status_in inside.now }
{
    let (status, _) = first_pair(inside, REQUEST_STATUS)?;
    Some(status)
}

/// Adds REQUEST-STATUS, where there is a status.
pub(crate) fn put_status(out: &mut FrameBuilder, status: Option<(u8, u8)>) -> Result<(), AllocError>
    ensures { OnOk result (out.new ≡ with_attrs out.old (spec.optional spec.status_attr status)) }
{
    if let Some((status, position)) = status {
        out.put_pair(REQUEST_STATUS, status, position)?;
    }
    Ok(())
}

/// What is left of the room behind REQUEST-STATUS, where there is a status.
pub(crate) fn after_status(room: usize, status: Option<(u8, u8)>) -> Option<usize>
    ensures { Leaves (spec.optional spec.status_attr status) room result }
{
    match status {
        Some(_) => room.checked_sub(SHORT_ATTRIBUTE),
        None => Some(room),
    }
}
