//! What a request says for a user, as a message of the protocol, and what answers it.

ghost use Rattle.std.specs.Prelude.{◌≡◌, IfOk};
ghost use Rattle.floor_message.specs.Written.{ask_bytes};
ghost use Rattle.floor_shown.specs.Asking.{created_of, creation_ask, head_of, priority_of};

use crate::deciding::Chair;
use crate::refused::Refused;
use crate::request::{overall_of, status_of};
use crate::texts::octets_of;
use floor_message::{Ask, Head, Info, Numbers, Tell, Verdicts, ask_fits, read_tell, write_ask};
use floor_rpc::{Created, Creation, ErrorName, Text, Why};
use floor_wire::{Frame, SharedFrame};
use std::alloc::{AllocError, Global};

/// The priority of a floor request that doesn't say one: Normal (RFC 8855, section 5.2.4).
const NORMAL: u16 = 2;

/// How many bytes of what a requester says, and of a chair's reason, are kept, as the machine keeps them.
const MAX_INFO: usize = 62;

const MAX_REASON: usize = 30;

/// The transaction of what is said: nobody else is told its answer.
const TRANSACTION: u16 = 1;

/// The FloorRequest of a request, for its beneficiary where another one asks (RFC 8855, section 10.1).
pub fn creation_ask(alloc: Global, creation: &Creation, by: u16) -> Result<Ask, AllocError>
    ensures value { IfOk result (λ ask. ask ≡ creation_ask creation.now by) }
{
    let beneficiary = if by == creation.beneficiary {
        None
    } else {
        Some(creation.beneficiary)
    };
    let floors = Vec::from_slice(alloc, creation.floors.as_slice())?;
    let info = octets_of(alloc, &creation.info, MAX_INFO)?;
    Ok(Ask::FloorRequest {
        beneficiary,
        floors: Numbers::from_vec(floors),
        priority: priority_of(creation.priority),
        info,
    })
}

/// A priority, or Normal; one above 255 is 255, which isn't a message's either.
fn priority_of(given: Option<u16>) -> u8
    ensures value { result ≡ priority_of given }
{
    match u8::try_from(given.unwrap_or(NORMAL)) {
        Ok(priority) => priority,
        Err(_) => u8::MAX,
    }
}

/// The ChairAction by which a chair decides so on a floor request (section 11.1).
pub fn decision_ask(
    alloc: Global,
    request: u16,
    chair: Chair,
    reason: &Option<Text>,
) -> Result<Ask, AllocError> {
    let reason = octets_of(alloc, reason, MAX_REASON)?;
    Ok(Ask::ChairAction {
        request,
        verdicts: Verdicts::from_vec(chair.verdicts),
        reason,
    })
}

/// The message that says it for a user of a conference.
pub fn message_of(alloc: Global, conference: u32, by: u16, ask: &Ask) -> Result<Frame, Refused>
    ensures value { IfOk result (λ frame. frame ≡ ask_bytes (head_of conference by) ask.now) }
{
    let head = Head {
        conference,
        transaction: TRANSACTION,
        user: by,
    };
    if !ask_fits(ask) {
        return Err(Refused::param(alloc, "floors", Why::OutOfRange));
    }
    match write_ask(alloc, &head, ask) {
        Ok(frame) => Ok(frame),
        Err(_) => Err(Refused::whole(ErrorName::Memory)),
    }
}

/// The floor request that an answer shows, where it shows one. An Error is a refusal, of the event at this place.
pub fn reply_of(
    alloc: Global,
    place: u64,
    reply: &Option<SharedFrame>,
) -> Result<Option<Info>, Refused> {
    let Some(shared) = reply else {
        return Ok(None);
    };
    let Some(frame) = frame_of(alloc, shared)? else {
        return Ok(None);
    };
    match read_tell(alloc, &frame) {
        Ok((_head, tell)) => told_of(place, tell),
        Err(_) => Err(Refused::whole(ErrorName::Memory)),
    }
}

/// The same of an answer that was read.
fn told_of(place: u64, tell: Tell) -> Result<Option<Info>, Refused> {
    match tell {
        Tell::FloorRequestStatus { info } => Ok(Some(info)),
        Tell::Error { code, .. } => Err(Refused::by_code(code, place)),
        _ => Ok(None),
    }
}

/// A message that may be shared, as one.
fn frame_of(alloc: Global, shared: &SharedFrame) -> Result<Option<Frame>, AllocError> {
    let mut bytes = Vec::new(alloc);
    bytes.extend_from_slice(shared.header())?;
    bytes.extend_from_slice(shared.payload())?;
    Frame::of(alloc, bytes.as_slice())
}

/// A floor request that was made, at this place.
pub fn created_of(info: &Info, place: u64) -> Created
    ensures value { result ≡ created_of place info.now }
{
    let (status, position) = overall_of(info);
    Created {
        request: info.request,
        status: status_of(status),
        position: u16::from(position),
        place,
    }
}
