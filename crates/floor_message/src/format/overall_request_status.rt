//! OVERALL-REQUEST-STATUS: the status of a whole floor request, and the reason for it (RFC 8855,
//! section 5.2.18).

ghost use Rattle.std.specs.Prelude.{◌≡◌, ◌≤◌, ℕ, length, OnOk, None, IfSome, [], ◌∷◌, option_copied};
ghost use Rattle.floor_message.specs.Fields.{overall_reason, overall_status};
ghost use Rattle.floor_message.specs.Tell.{overall_of};
ghost use Rattle.floor_message.specs.Written as spec;
ghost use Rattle.floor_message.specs.steps.Leaves.{Leaves};
ghost use Rattle.floor_message.specs.steps.Writing.{with_attrs};
ghost use Rattle.floor_wire.specs.Spelling.{IsWritable, canon};
ghost use Rattle.floor_wire.specs.View.{attributes_of};

use crate::format::group::{GROUP_HEAD, LONGEST_GROUP, first_group};
use crate::format::octets::{after_optional_octets, first_octets, put_octets};
use crate::format::pair::first_pair;
use crate::format::request_status::{after_status, put_status, status_in};
use crate::format::text::text_len;
use crate::kind::{OVERALL_REQUEST_STATUS, REQUEST_STATUS, STATUS_INFO};
use floor_wire::{AttrsView, FrameBuilder, Octets};
use std::alloc::AllocError;

/// The status in the first OVERALL-REQUEST-STATUS.
pub(crate) fn overall_status(inside: &AttrsView) -> Option<u8>
    ensures { result ≡ overall_status inside.now }
{
    let (_, overall) = first_group(inside, OVERALL_REQUEST_STATUS)?;
    status_in(&overall)
}

/// The status and the queue position in the first OVERALL-REQUEST-STATUS.
pub(crate) fn overall_of(inside: &AttrsView) -> Option<(u8, u8)>
    ensures { result ≡ overall_of inside.now }
{
    let (_, within) = first_group(inside, OVERALL_REQUEST_STATUS)?;
    first_pair(&within, REQUEST_STATUS)
}

/// The text of the reason in the first OVERALL-REQUEST-STATUS.
pub(crate) fn overall_reason<'a>(inside: &AttrsView<'a>) -> Option<&'a [u8]>
    ensures { option_copied result ≡ overall_reason inside.now }
{
    let (_, within) = first_group(inside, OVERALL_REQUEST_STATUS)?;
    first_octets(&within, STATUS_INFO)
}

/// Adds OVERALL-REQUEST-STATUS, where there is a status or a reason.
pub(crate) fn put_overall(
    out: &mut FrameBuilder,
    request: u16,
    status: Option<(u8, u8)>,
    reason: &Option<Octets>,
) -> Result<(), AllocError>
    requires { IsWritable (attributes_of (spec.overall_attrs request status reason.now)) }
    ensures { OnOk result (out.new
        ≡ with_attrs out.old (spec.overall_attrs request status reason.now)) }
{
    match (status, reason) {
        (None, None) => Ok(()),
        (None, Some(_)) | (Some(_), _) => put_overall_attr(out, request, status, reason),
    }
}

fn put_overall_attr(
    out: &mut FrameBuilder,
    request: u16,
    status: Option<(u8, u8)>,
    reason: &Option<Octets>,
) -> Result<(), AllocError>
    requires { IsWritable (attributes_of
        (spec.group OVERALL_REQUEST_STATUS request (spec.overall_inside status reason.now) ∷ [])) }
    ensures { OnOk result (out.new ≡ with_attrs out.old
        (spec.group OVERALL_REQUEST_STATUS request (spec.overall_inside status reason.now) ∷ [])) }
{
    let start = out.begin_group(OVERALL_REQUEST_STATUS, request)?;
    put_status(out, status)?;
    put_octets(out, STATUS_INFO, reason)?;
    out.end_group(start);
    Ok(())
}

/// How many bytes OVERALL-REQUEST-STATUS takes with a reason alone, where there is one.
pub(crate) fn overall_len(reason: &Option<Octets>) -> usize
    requires { IfSome reason.now (λ text. length text ≤ 253) }
    ensures value { (request : ℕ)
        → result ≡ length (canon (attributes_of (spec.overall_attrs request None reason.now))) }
    ensures fits { result ≤ 260 }
{
    match reason {
        Some(_) => GROUP_HEAD + text_len(reason),
        None => 0,
    }
}

/// What is left of the room behind OVERALL-REQUEST-STATUS, where there is a status or a reason.
pub(crate) fn after_overall(
    room: usize,
    request: u16,
    status: Option<(u8, u8)>,
    reason: &Option<Octets>,
) -> Option<usize>
    ensures { Leaves (spec.overall_attrs request status reason.now) room result }
{
    match (status, reason) {
        (None, None) => Some(room),
        (None, Some(_)) | (Some(_), _) => after_overall_attr(room, request, status, reason),
    }
}

fn after_overall_attr(
    room: usize,
    request: u16,
    status: Option<(u8, u8)>,
    reason: &Option<Octets>,
) -> Option<usize>
    ensures { Leaves
        (spec.group OVERALL_REQUEST_STATUS request (spec.overall_inside status reason.now) ∷ [])
        room result }
{
    let left = after_status(LONGEST_GROUP - GROUP_HEAD, status)?;
    let left = after_optional_octets(left, reason)?;
    room.checked_sub(LONGEST_GROUP - left)
}
