//! Which messages can be written, so that they are read back as they were (RFC 8855, sections 5.1 to
//! 5.3).

ghost use Rattle.std.specs.List.{list_any};
ghost use Rattle.std.specs.Prelude.{◌≡◌, ◌==◌, ◌↔◌, ◌<◌, ◌≤◌, ◌^◌, ℕ, All, IfSome, IsTrue, Some, filter, length};
ghost use Rattle.floor_message.specs.Fits.{AskFits, AskNumbersFit, AskPartsFit, FloorRequestFits, NumbersFit, PriorityFits, TellFits};
ghost use Rattle.floor_message.specs.Written.{ask_attrs, tell_attrs};
ghost use Rattle.floor_message.specs.steps.Leaves.{Leaves};
ghost use Rattle.floor_wire.specs.Bytes.{IsBytes, IsOfBytes};
ghost use Rattle.floor_wire.specs.Spelling.{canon};
ghost use Rattle.floor_wire.specs.View.{attributes_of};

use crate::ask::Ask;
use crate::format::attribute_types::types_fit;
use crate::format::attributes::SHORT_ATTRIBUTE;
use crate::format::error_code::after_error;
use crate::format::floor_request_information::{
    after_info, after_infos, after_infos_on, priorities_fit, priority_fits,
};
use crate::format::floors::{after_floor, floors_fit, floors_len};
use crate::format::number::number_len;
use crate::format::supported::after_supported;
use crate::format::text::{LONGEST_INFO, optional_text_fits, text_len};
use crate::format::user_information::after_who;
use crate::format::verdicts::{chair_action_fits, chair_action_len};
use crate::information::Info;
use crate::shared_info::SharedInfo;
use crate::tell::Tell;
use crate::verdicts::Verdict;
use floor_wire::Octets;

/// The most bytes behind a header: 65,535 units of 4.
const LONGEST_PAYLOAD: usize = 4 * 65535;

/// Whether the message can be written: a FloorRequest names a floor, floors and verdicts name each
/// floor once, a priority is at most 4, a text is UTF-8 of 1 to 62 bytes, a reason of 1 to 30, there
/// are 1 to 31 verdicts, or to 26 beside a reason, and at most 60,000 floors. Takes no memory, so
/// its time grows with the square of the floors.
pub fn ask_fits(ask: &Ask) -> bool
    ensures value { IsTrue result ↔ AskFits ask.now }
    ensures bytes { IsTrue result → IsOfBytes (attributes_of (ask_attrs ask.now)) }
{
    its_numbers_fit(ask);
    parts_fit(ask)
}

/// Its numbers are of 16 bits, as their types say.
fn its_numbers_fit(ask: &Ask)
    ensures { AskNumbersFit ask.now }
{
    match ask {
        Ask::FloorRequest {
            beneficiary,
            floors,
            ..
        } => {
            is_of_16_bits(*beneficiary);
            numbers_are_of_16_bits(floors.as_slice());
        }
        Ask::FloorRelease { request } | Ask::FloorRequestQuery { request } => {
            let _request = *request;
        }
        Ask::UserQuery { beneficiary } => is_of_16_bits(*beneficiary),
        Ask::FloorQuery { floors } => numbers_are_of_16_bits(floors.as_slice()),
        Ask::ChairAction {
            request,
            verdicts,
            ..
        } => {
            let _request = *request;
            floors_are_of_16_bits(verdicts.as_slice());
        }
        Ask::Hello => {}
    }
}

fn is_of_16_bits(number: Option<u16>)
    ensures { IfSome number (λ n. n < 2 ^ 16) }
{}

fn numbers_are_of_16_bits(numbers: &[u16])
    ensures { All (λ n. n < 2 ^ 16) numbers.now }
{}

fn floors_are_of_16_bits(verdicts: &[(u16, Verdict)])
    ensures { All (λ verdict. verdict.0 < 2 ^ 16) verdicts.now }
{
    for (floor, _) in verdicts {
        is_of_16_bits(Some(*floor));
    }
}

fn parts_fit(ask: &Ask) -> bool
    ensures value { IsTrue result ↔ AskPartsFit ask.now }
    ensures bytes { IsTrue result → IsOfBytes (attributes_of (ask_attrs ask.now)) }
{
    match ask {
        Ask::FloorRequest {
            floors,
            priority,
            info,
            ..
        } => floor_request_fits(floors.as_slice(), *priority, info),
        Ask::FloorRelease { .. } => true,
        Ask::FloorRequestQuery { .. } => true,
        Ask::UserQuery { .. } => true,
        Ask::FloorQuery { floors } => floors_fit(floors.as_slice()),
        Ask::ChairAction {
            verdicts,
            reason,
            ..
        } => chair_action_fits(verdicts.as_slice(), reason),
        Ask::Hello => true,
    }
}

fn floor_request_fits(floors: &[u16], priority: u8, info: &Option<Octets>) -> bool
    ensures value { IsTrue result ↔ FloorRequestFits floors.now priority info.now }
    ensures bytes { IsTrue result → IfSome info.now IsBytes }
{
    !floors.is_empty()
        && priority <= 4
        && floors_fit(floors)
        && optional_text_fits(info, LONGEST_INFO)
}

/// Whether the message can be written: each priority is at most 4, each type of attribute below
/// 128, each group at most 252 bytes, each octet string at most 253 octets, an ERROR-CODE at most
/// 252 details, and the payload at most 65,535 units of 4 bytes. Takes no memory.
pub fn tell_fits(tell: &Tell) -> bool
    ensures value { IsTrue result ↔ TellFits tell.now }
    ensures bytes { IsTrue result → IsOfBytes (attributes_of (tell_attrs tell.now)) }
{
    numbers_fit(tell) && after_tell(LONGEST_PAYLOAD, tell).is_some()
}

/// How long the payload of the message is.
pub(crate) fn ask_len(ask: &Ask) -> usize
    requires { AskFits ask.now }
    ensures { result ≡ length (canon (attributes_of (ask_attrs ask.now))) }
{
    match ask {
        Ask::FloorRequest {
            beneficiary,
            floors,
            info,
            ..
        } => floor_request_len(*beneficiary, floors.as_slice(), info),
        Ask::FloorRelease { .. } | Ask::FloorRequestQuery { .. } => SHORT_ATTRIBUTE,
        Ask::UserQuery { beneficiary } => number_len(*beneficiary),
        Ask::FloorQuery { floors } => floors_len(floors.as_slice()),
        Ask::ChairAction {
            verdicts,
            reason,
            ..
        } => chair_action_len(verdicts.as_slice(), reason),
        Ask::Hello => 0,
    }
}

fn floor_request_len(beneficiary: Option<u16>, floors: &[u16], info: &Option<Octets>) -> usize
    requires few { length floors.now ≤ 60000 }
    requires text { IfSome info.now (λ text. length text ≤ 253) }
    ensures { (priority : ℕ) → result ≡ length (canon (attributes_of
        (ask_attrs (Ask.FloorRequest beneficiary floors.now priority info.now)))) }
{
    floors_len(floors) + number_len(beneficiary) + text_len(info) + SHORT_ATTRIBUTE
}

fn numbers_fit(tell: &Tell) -> bool
    ensures { IsTrue result ↔ NumbersFit tell.now }
{
    match tell {
        Tell::FloorRequestStatus { info } => priority_fits(info),
        Tell::UserStatus { infos, .. } => priorities_fit(infos.as_slice()),
        Tell::FloorStatus { infos, .. } => priorities_fit(infos.as_slice()),
        Tell::ChairActionAck => true,
        Tell::HelloAck { attributes, .. } => types_fit(attributes.as_slice()),
        Tell::Error { .. } => true,
    }
}

/// How long the payload of the message is.
pub(crate) fn tell_len(tell: &Tell) -> usize
    requires { TellFits tell.now }
    ensures { result ≡ length (canon (attributes_of (tell_attrs tell.now))) }
{
    let Some(left) = after_tell(LONGEST_PAYLOAD, tell) else {
        unreachable!()
    };
    LONGEST_PAYLOAD - left
}

/// How long the payload of a FloorRequestStatus is.
pub(crate) fn request_status_len(info: &Info) -> usize
    requires { TellFits (Tell.FloorRequestStatus info.now) }
    ensures { result
        ≡ length (canon (attributes_of (tell_attrs (Tell.FloorRequestStatus info.now)))) }
{
    let Some(left) = after_info(LONGEST_PAYLOAD, info) else {
        unreachable!()
    };
    LONGEST_PAYLOAD - left
}

/// How long the payload of a FloorStatus is, with those of these floor requests that name the floor.
pub(crate) fn floor_status_len(floor: u16, infos: &[SharedInfo]) -> usize
    requires { TellFits (Tell.FloorStatus (Some floor)
        (filter (λ i. list_any (λ f. f.0 == floor) i.floors) infos.now)) }
    ensures { result
        ≡ length (canon (attributes_of (tell_attrs (Tell.FloorStatus (Some floor)
        (filter (λ i. list_any (λ f. f.0 == floor) i.floors) infos.now))))) }
{
    let Some(left) = after_floor_status(LONGEST_PAYLOAD, floor, infos) else {
        unreachable!()
    };
    LONGEST_PAYLOAD - left
}

/// What is left of the room behind the attributes of a FloorStatus.
fn after_floor_status(room: usize, floor: u16, infos: &[SharedInfo]) -> Option<usize>
    requires { All PriorityFits
        (filter (λ i. list_any (λ f. f.0 == floor) i.floors) infos.now) }
    ensures { Leaves (tell_attrs (Tell.FloorStatus (Some floor)
        (filter (λ i. list_any (λ f. f.0 == floor) i.floors) infos.now))) room result }
{
    let room = after_floor(room, Some(floor))?;
    after_infos_on(room, floor, infos)
}

/// What is left of the room behind the attributes of the message, where they can be written in it.
fn after_tell(room: usize, tell: &Tell) -> Option<usize>
    requires { NumbersFit tell.now }
    ensures { Leaves (tell_attrs tell.now) room result }
{
    match tell {
        Tell::FloorRequestStatus { info } => after_info(room, info),
        Tell::UserStatus { who, infos } => {
            let room = after_who(room, who)?;
            after_infos(room, infos.as_slice())
        }
        Tell::FloorStatus { floor, infos } => {
            let room = after_floor(room, *floor)?;
            after_infos(room, infos.as_slice())
        }
        Tell::ChairActionAck => Some(room),
        Tell::HelloAck {
            primitives,
            attributes,
        } => after_supported(room, primitives.as_slice(), attributes.as_slice()),
        Tell::Error { code, details } => after_error(room, *code, details.as_slice()),
    }
}
