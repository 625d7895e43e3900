//! Floor requests, as they are shown.

ghost use Rattle.std.specs.Prelude.{◌≡◌, IfOk, None, map, option_map};
ghost use Rattle.floor_shown.specs.Requests.{floor_in, is_granted_at, overall_of, shown_of, status_of, untimed, user_in};

use crate::refused::Refused;
use crate::texts::text_of;
use crate::time::time_where;
use crate::times::RequestTimes;
use floor_loop::Loop;
use floor_message::{Info, RequestStatus, Who};
use floor_rpc::{About, ErrorName, FloorStatus, List, RequestShown, Text};
use std::alloc::{AllocError, Global};

/// The status that a number tells (RFC 8855, section 5.2.5).
pub(crate) fn status_of(number: u8) -> RequestStatus
    ensures value { result ≡ status_of number }
{
    match number {
        2 => RequestStatus::Accepted,
        3 => RequestStatus::Granted,
        4 => RequestStatus::Denied,
        5 => RequestStatus::Cancelled,
        6 => RequestStatus::Released,
        7 => RequestStatus::Revoked,
        _ => RequestStatus::Pending,
    }
}

/// The user of whom something is shown; 0 where none is.
pub(crate) fn user_in(who: &Option<Who>) -> u16
    ensures value { result ≡ user_in who.now }
{
    match who {
        Some(who) => who.user,
        None => 0,
    }
}

/// Whether a floor is shown as granted.
pub(crate) fn is_granted_at(status: Option<(u8, u8)>) -> bool
    ensures value { result ≡ is_granted_at status }
{
    match status {
        Some((status, _position)) => status == RequestStatus::Granted.number(),
        None => false,
    }
}

/// A floor request as it is shown, with its times.
pub(crate) fn request_shown(
    alloc: Global,
    info: &Info,
    times: RequestTimes,
) -> Result<RequestShown, AllocError>
    ensures value { IfOk result (λ shown. untimed shown ≡ shown_of None None info.now) }
{
    let since = time_where(alloc, times.since)?;
    let granted = time_where(alloc, times.granted)?;
    shown_of(alloc, info, since, granted)
}

/// The same, with the texts of its times.
fn shown_of(
    alloc: Global,
    info: &Info,
    since: Option<Text>,
    granted: Option<Text>,
) -> Result<RequestShown, AllocError>
    ensures value { IfOk result (λ shown. shown ≡ shown_of since granted info.now) }
{
    let floors = floors_shown(alloc, info)?;
    let told = text_of(alloc, &info.info)?;
    let reason = text_of(alloc, &info.reason)?;
    Ok(with_texts(info, floors, told, reason, since, granted))
}

/// The same, of these floors and texts.
fn with_texts(
    info: &Info,
    floors: List<FloorStatus>,
    told: Option<Text>,
    reason: Option<Text>,
    since: Option<Text>,
    granted: Option<Text>,
) -> RequestShown
    ensures value { result ≡ record (shown_of since granted info.now) {
      floors = floors;
      info = told;
      reason = reason;
    } }
{
    let (status, position) = overall_of(info);
    RequestShown {
        request: info.request,
        user: user_in(&info.beneficiary),
        by: requester_in(&info.requester),
        floors,
        status: status_of(status),
        position: u16::from(position),
        priority: priority_in(info.priority),
        info: told,
        reason,
        since,
        granted,
    }
}

/// Its status and queue position; Pending, where none is shown.
pub(crate) fn overall_of(info: &Info) -> (u8, u8)
    ensures value { result ≡ overall_of info.now }
{
    info.overall.unwrap_or((1, 0))
}

/// Its floors, each with its status, that of the whole request where a floor has none.
fn floors_shown(alloc: Global, info: &Info) -> Result<List<FloorStatus>, AllocError>
    ensures value { IfOk result (λ floors. floors
        ≡ map (floor_in (overall_of info.now).0) info.now.floors) }
{
    let (status, _position) = overall_of(info);
    Ok(List::from_vec(floors_in(alloc, info.floors.as_slice(), status)?))
}

/// Floors, each with its status, or that of the whole request.
fn floors_in(
    alloc: Global,
    floors: &[(u16, Option<(u8, u8)>)],
    overall: u8,
) -> Result<Vec<FloorStatus>, AllocError>
    ensures value { IfOk result (λ shown. shown.items ≡ map (floor_in overall) floors.now) }
{
    floors
        .iter()
        .map(|floor| floor_in(overall, *floor))
        .collect(alloc)
}

/// One of its floors, with its status, or that of the whole request.
fn floor_in(overall: u8, floor: (u16, Option<(u8, u8)>)) -> FloorStatus
    ensures value { result ≡ floor_in overall floor }
{
    let (status, _position) = floor.1.unwrap_or((overall, 0));
    FloorStatus {
        floor: floor.0,
        status: status_of(status),
    }
}

fn requester_in(who: &Option<Who>) -> Option<u16>
    ensures value { result ≡ option_map (λ w. w.user) who.now }
{
    match who {
        Some(who) => Some(who.user),
        None => None,
    }
}

fn priority_in(priority: Option<u8>) -> Option<u16>
    ensures value { result ≡ priority }
{
    match priority {
        Some(priority) => Some(u16::from(priority)),
        None => None,
    }
}

/// What is shown of an ongoing floor request.
pub fn info_of(hub: &Loop, conference: u32, request: u16) -> Result<&Info, Refused> {
    let shown = match hub.shown(conference) {
        Ok(shown) => shown,
        Err(refusal) => return Err(Refused::of_conference(refusal, conference)),
    };
    match shown.iter().find(|info| info.as_info().request == request) {
        Some(info) => Ok(info.as_info()),
        None => Err(Refused::of(ErrorName::NoRequest, About::Request(request))),
    }
}

/// Who made a floor request.
pub fn requester_of(info: &Info) -> u16 {
    match &info.requester {
        Some(who) => who.user,
        None => user_in(&info.beneficiary),
    }
}
