//! What a message asks, under the binding of its connection: the first check that applies
//! (RFC 8855, sections 5.1 to 5.3 and 13).

ghost use Rattle.std.specs.Prelude.{◌≡◌, Some, IfOk, [], IfErr};
ghost use Rattle.floor_message.specs.Ask.{HasShortDetails, IsAnswer, ask};
ghost use Rattle.floor_message.specs.Binding.{binding_of};
ghost use Rattle.floor_message.specs.Fields.{is_ask, fields};
ghost use Rattle.floor_message.specs.declared.primitive.Primitive.TheVariants as primitive;
ghost use Rattle.floor_message.specs.steps.Answering as spec;
ghost use Rattle.floor_wire.specs.Spelled.{spelled};

use crate::ask::{Ask, AskFault, Binding};
use crate::code::ErrorCode;
use crate::format::attribute_types::doubled;
use crate::format::attributes::payload_attrs;
use crate::format::floors::floors_in;
use crate::format::mandatory::mandatory_types;
use crate::format::number::first_number;
use crate::format::octets::first_octets;
use crate::format::pair::first_pair;
use crate::format::priority::priority_asked;
use crate::format::text::{LONGEST_INFO, text_kept};
use crate::format::verdicts::chair_action;
use crate::kind::{BENEFICIARY_ID, FLOOR_REQUEST_ID, PARTICIPANT_PROVIDED_INFO, PRIORITY};
use crate::primitive::Primitive;
use floor_wire::{AttrsView, Frame, Header, Numbers, Octets};
use std::alloc::{AllocError, Global};

/// What the message asks of the server; None for an Error, which is left unanswered.
///
/// Else the error code of the first check that applies: `UnsupportedVersion`,
/// `ConferenceDoesNotExist`, `UserDoesNotExist`, `UnauthorizedOperation`, `UnknownPrimitive`,
/// `UnableToParseMessage` where the payload spells no attributes, `UnknownMandatoryAttribute` with the
/// types as details, and `UnableToParseMessage` where what is required is missing.
///
/// The text of a FloorRequest is cut to at most 62 bytes, the reason of a ChairAction to at most 30,
/// and a priority is at most 4.
pub fn read_ask(alloc: Global, frame: &Frame, binding: &Binding) -> Result<Option<Ask>, AskFault>
    ensures value { IsAnswer (ask frame.now (binding_of binding.now)) result }
    ensures details { IfErr result HasShortDetails }
{
    let header = frame.header();
    match header_refusal(&header, binding) {
        Some(code) => Err(error(alloc, code)),
        None => by_primitive(
            alloc,
            Primitive::of_number(header.primitive()),
            &frame.bytes()[12..],
        ),
    }
}

/// The error code that the header alone is answered by.
fn header_refusal(header: &Header, binding: &Binding) -> Option<ErrorCode>
    ensures { result ≡ spec.header_refusal header.now (binding_of binding.now) }
{
    if header.version() != 1 {
        return Some(ErrorCode::UnsupportedVersion);
    }
    if header.conference() != binding.conference {
        return Some(ErrorCode::ConferenceDoesNotExist);
    }
    let is_user = binding.users.contains(&header.user());
    if !is_user {
        return Some(ErrorCode::UserDoesNotExist);
    }
    if header.user() != binding.user {
        return Some(ErrorCode::UnauthorizedOperation);
    }
    None
}

fn by_primitive(
    alloc: Global,
    primitive: Option<Primitive>,
    payload: &[u8],
) -> Result<Option<Ask>, AskFault>
    ensures value { IsAnswer (spec.by_primitive primitive (spelled payload.now)) result }
    ensures details { IfErr result HasShortDetails }
{
    match primitive {
        None => Err(error(alloc, ErrorCode::UnknownPrimitive)),
        Some(Primitive::Error) => Ok(None),
        Some(primitive) if is_ask(primitive) => by_attributes(alloc, primitive, payload),
        Some(_) => Err(error(alloc, ErrorCode::UnknownPrimitive)),
    }
}

fn by_attributes(
    alloc: Global,
    primitive: Primitive,
    payload: &[u8],
) -> Result<Option<Ask>, AskFault>
    ensures value { IsAnswer (spec.by_attributes primitive (spelled payload.now)) result }
    ensures details { IfErr result HasShortDetails }
{
    let Some(attrs) = payload_attrs(payload) else {
        return Err(error(alloc, ErrorCode::UnableToParseMessage));
    };
    let types = mandatory_types(alloc, &attrs)?;
    if !types.is_empty() {
        return Err(AskFault::Error {
            code: ErrorCode::UnknownMandatoryAttribute,
            details: Octets::from_vec(doubled(alloc, &types)?),
        });
    }
    match fields(alloc, primitive, &attrs)? {
        Some(ask) => Ok(Some(ask)),
        None => Err(error(alloc, ErrorCode::UnableToParseMessage)),
    }
}

/// An Error without details.
fn error(alloc: Global, code: ErrorCode) -> AskFault
    ensures { result ≡ AskFault.Error code [] }
{
    AskFault::Error {
        code,
        details: Octets::from_vec(Vec::new(alloc)),
    }
}

/// The primitive is one that a client asks by.
pub(crate) fn is_ask(primitive: Primitive) -> bool
    ensures { result ≡ is_ask primitive }
{
    match primitive {
        Primitive::FloorRequest
        | Primitive::FloorRelease
        | Primitive::FloorRequestQuery
        | Primitive::UserQuery
        | Primitive::FloorQuery
        | Primitive::ChairAction
        | Primitive::Hello => true,
        Primitive::FloorRequestStatus
        | Primitive::UserStatus
        | Primitive::FloorStatus
        | Primitive::ChairActionAck
        | Primitive::HelloAck
        | Primitive::Error => false,
    }
}

/// What the attributes ask, unless a required one is missing or has no usable value.
pub(crate) fn fields(
    alloc: Global,
    primitive: Primitive,
    attrs: &AttrsView,
) -> Result<Option<Ask>, AllocError>
    ensures { IfOk result (λ ask. ask ≡ fields primitive attrs.now) }
{
    match primitive {
        Primitive::FloorRequest => floor_request(alloc, attrs),
        Primitive::FloorRelease => Ok(floor_release(attrs)),
        Primitive::FloorRequestQuery => Ok(floor_request_query(attrs)),
        Primitive::UserQuery => Ok(Some(user_query(attrs))),
        Primitive::FloorQuery => Ok(Some(floor_query(alloc, attrs)?)),
        Primitive::ChairAction => chair_action(alloc, attrs),
        Primitive::Hello => Ok(Some(Ask::Hello)),
        Primitive::FloorRequestStatus
        | Primitive::UserStatus
        | Primitive::FloorStatus
        | Primitive::ChairActionAck
        | Primitive::HelloAck
        | Primitive::Error => Ok(None),
    }
}

fn floor_request(alloc: Global, attrs: &AttrsView) -> Result<Option<Ask>, AllocError>
    ensures { IfOk result (λ ask. ask ≡ fields primitive.FloorRequest attrs.now) }
{
    let floors = floors_in(alloc, attrs)?;
    if floors.is_empty() {
        return Ok(None);
    }
    let text = first_octets(attrs, PARTICIPANT_PROVIDED_INFO);
    let Some(info) = text_kept(alloc, text, LONGEST_INFO)? else {
        return Ok(None);
    };
    Ok(Some(Ask::FloorRequest {
        beneficiary: first_number(attrs, BENEFICIARY_ID),
        floors: Numbers::from_vec(floors),
        priority: priority_asked(first_pair(attrs, PRIORITY)),
        info,
    }))
}

fn floor_release(attrs: &AttrsView) -> Option<Ask>
    ensures { result ≡ fields primitive.FloorRelease attrs.now }
{
    let request = first_number(attrs, FLOOR_REQUEST_ID)?;
    Some(Ask::FloorRelease { request })
}

fn floor_request_query(attrs: &AttrsView) -> Option<Ask>
    ensures { result ≡ fields primitive.FloorRequestQuery attrs.now }
{
    let request = first_number(attrs, FLOOR_REQUEST_ID)?;
    Some(Ask::FloorRequestQuery { request })
}

fn user_query(attrs: &AttrsView) -> Ask
    ensures { fields primitive.UserQuery attrs.now ≡ Some result }
{
    Ask::UserQuery {
        beneficiary: first_number(attrs, BENEFICIARY_ID),
    }
}

fn floor_query(alloc: Global, attrs: &AttrsView) -> Result<Ask, AllocError>
    ensures { IfOk result (λ ask. fields primitive.FloorQuery attrs.now ≡ Some ask) }
{
    Ok(Ask::FloorQuery {
        floors: Numbers::from_vec(floors_in(alloc, attrs)?),
    })
}
