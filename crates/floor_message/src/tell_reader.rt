//! What a message from the server tells (RFC 8855, sections 5.3.4 to 5.3.13).

ghost use Rattle.std.specs.Prelude.{◌≡◌, Some, IfOk, None, IsErrOf};
ghost use Rattle.floor_message.specs.Tell as spec;
ghost use Rattle.floor_message.specs.declared.primitive.Primitive.TheVariants as primitive;
ghost use Rattle.floor_wire.specs.Spelled.{spelled};

use crate::format::attributes::payload_attrs;
use crate::format::error_code::error;
use crate::format::floor_request_information::{info_of, infos_of};
use crate::format::group::first_group;
use crate::format::mandatory::mandatory_types;
use crate::format::number::first_number;
use crate::format::supported::hello_ack;
use crate::format::user_information::first_who;
use crate::head::Head;
use crate::kind::{BENEFICIARY_INFORMATION, FLOOR_ID, FLOOR_REQUEST_INFORMATION};
use crate::primitive::Primitive;
use crate::tell::{Tell, TellFault};
use floor_wire::{AttrsView, Frame, Header};
use std::alloc::{AllocError, Global};

/// What the message tells, and under which head.
///
/// It is a bad message (`BadMessage`) where its version isn't 1; its primitive isn't one that a
/// server tells by; its payload spells no attributes; an unknown attribute has M set;
/// FLOOR-REQUEST-INFORMATION is missing in a FloorRequestStatus, or SUPPORTED-PRIMITIVES or
/// SUPPORTED-ATTRIBUTES in a HelloAck; ERROR-CODE is missing or has no code in an Error.
pub fn read_tell(alloc: Global, frame: &Frame) -> Result<(Head, Tell), TellFault>
    ensures value { IfOk result (λ read. spec.tell frame.now ≡ Some read) }
    ensures bad_message { IsErrOf result TellFault.BadMessage → spec.tell frame.now ≡ None }
{
    let header = frame.header();
    match told(alloc, &header, &frame.bytes()[12..])? {
        Some(tell) => Ok((Head::response(frame), tell)),
        None => Err(TellFault::BadMessage),
    }
}

fn told(alloc: Global, header: &Header, payload: &[u8]) -> Result<Option<Tell>, AllocError>
    ensures { IfOk result (λ told. told ≡ spec.told header.now (spelled payload.now)) }
{
    if header.version() != 1 {
        return Ok(None);
    }
    match Primitive::of_number(header.primitive()) {
        Some(primitive) => by_payload(alloc, primitive, payload),
        None => Ok(None),
    }
}

fn by_payload(
    alloc: Global,
    primitive: Primitive,
    payload: &[u8],
) -> Result<Option<Tell>, AllocError>
    ensures { IfOk result (λ told. told ≡ spec.by_payload primitive (spelled payload.now)) }
{
    let Some(attrs) = payload_attrs(payload) else {
        return Ok(None);
    };
    let types = mandatory_types(alloc, &attrs)?;
    if !types.is_empty() {
        return Ok(None);
    }
    tell_of(alloc, primitive, &attrs)
}

fn tell_of(
    alloc: Global,
    primitive: Primitive,
    attrs: &AttrsView,
) -> Result<Option<Tell>, AllocError>
    ensures { IfOk result (λ told. told ≡ spec.tell_of primitive attrs.now) }
{
    match primitive {
        Primitive::FloorRequestStatus => floor_request_status(alloc, attrs),
        Primitive::UserStatus => Ok(Some(Tell::UserStatus {
            who: first_who(alloc, attrs, BENEFICIARY_INFORMATION)?,
            infos: infos_of(alloc, attrs)?,
        })),
        Primitive::FloorStatus => Ok(Some(Tell::FloorStatus {
            floor: first_number(attrs, FLOOR_ID),
            infos: infos_of(alloc, attrs)?,
        })),
        Primitive::ChairActionAck => Ok(Some(Tell::ChairActionAck)),
        Primitive::HelloAck => hello_ack(alloc, attrs),
        Primitive::Error => error(alloc, attrs),
        Primitive::FloorRequest
        | Primitive::FloorRelease
        | Primitive::FloorRequestQuery
        | Primitive::UserQuery
        | Primitive::FloorQuery
        | Primitive::ChairAction
        | Primitive::Hello => Ok(None),
    }
}

fn floor_request_status(alloc: Global, attrs: &AttrsView) -> Result<Option<Tell>, AllocError>
    ensures { IfOk result (λ told. told ≡ spec.tell_of primitive.FloorRequestStatus attrs.now) }
{
    let Some((request, inside)) = first_group(attrs, FLOOR_REQUEST_INFORMATION) else {
        return Ok(None);
    };
    Ok(Some(Tell::FloorRequestStatus {
        info: info_of(alloc, request, &inside)?,
    }))
}
