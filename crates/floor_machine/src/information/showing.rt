//! What is shown of users and of floor requests (RFC 8855, sections 5.2.12 to 5.2.18).

ghost use Rattle.std.specs.Prelude.{◌≡◌, ◌<◌, ◌==◌, ◌^◌, [], IfOk, None, OnOk, Some, fold, if◌then◌else◌, map, max, true};
ghost use Rattle.floor_config.specs.Configuration.{IsConfiguration};
ghost use Rattle.floor_queue.specs.Order.{names};
ghost use Rattle.floor_message.specs.Shown.{IsShownInfo};
ghost use Rattle.floor_machine.specs.Shown as spec;
ghost use Rattle.floor_machine.specs.Shown.{entry_of, info, info_of, overall_status};
ghost use Rattle.floor_machine.specs.steps.Fitting.{HasNumbers, IsFit};
ghost use Rattle.floor_machine.specs.steps.Telling.{ended_floor_shown, entry_of_ended, info_with, position_shown};

use crate::course::Ended;
use crate::information::settled::OngoingRequest;
use floor_config::{Config, Text};
use floor_message::{FloorStatuses, Info, RequestStatus, Who};
use floor_queue::{FloorStatus, Request, RequestedFloor};
use floor_wire::Octets;
use std::alloc::{AllocError, Global};

impl OngoingRequest<'_> {
    /// What is shown of the request.
    pub(crate) fn info(&self, alloc: Global) -> Result<Info, AllocError>
        ensures value { IfOk result (λ shown. shown
            ≡ info self.now.settled.config.now self.now.settled.requests.now.ongoing
            self.now.request.now) }
        ensures shown { IfOk result IsShownInfo }
    {
        // Each ongoing request is one that could be added, which bounds what is shown of it.
        let _ongoing = self.settled.requests.ongoing();
        let mut floors = Vec::new(alloc);
        self.show_floors(&mut floors)?;
        info_with(
            alloc,
            self.settled.config,
            self.request,
            ongoing_status(self.request).number(),
            floors,
        )
    }

    /// The floors of the request, each with its status and queue position, in place of those that
    /// are there.
    pub(crate) fn show_floors(
        &self,
        shown: &mut Vec<(u16, Option<(u8, u8)>)>,
    ) -> Result<(), AllocError>
        ensures { OnOk result (shown.new.items
            ≡ map (spec.floor_shown self.now.settled.requests.now.floors
            self.now.settled.requests.now.ongoing (entry_of self.now.request.now))
            self.now.request.now.floors) }
    {
        shown.clear();
        for requested in self.request.floors.as_slice() {
            shown.push(self.floor_shown(requested))?;
        }
        Ok(())
    }

    /// A floor of the request, with its status and queue position.
    fn floor_shown(&self, requested: &RequestedFloor) -> (u16, Option<(u8, u8)>)
        requires { names self.now.request.now requested.now.floor ≡ true }
        ensures { result
            ≡ spec.floor_shown self.now.settled.requests.now.floors
            self.now.settled.requests.now.ongoing (entry_of self.now.request.now) requested.now }
    {
        let status = floor_status(self.request, requested).number();
        let position = self
            .settled
            .requests
            .position_of(self.request, requested.floor);
        (requested.floor, Some((status, position)))
    }
}

/// The octets of a text, where there is one.
fn octets_of(alloc: Global, text: &Option<Text>) -> Result<Option<Octets>, AllocError>
    ensures { IfOk result (λ octets. octets ≡ text.now) }
{
    match text {
        None => Ok(None),
        Some(text) => {
            let bytes = Vec::from_slice(alloc, text.as_str().as_bytes())?;
            Ok(Some(Octets::from_vec(bytes)))
        }
    }
}

/// A copy of the octets, where there are any.
fn copied(alloc: Global, octets: &Option<Octets>) -> Result<Option<Octets>, AllocError>
    ensures { IfOk result (λ copy. copy ≡ octets.now) }
{
    match octets {
        None => Ok(None),
        Some(octets) => Ok(Some(octets.copy(alloc)?)),
    }
}

/// The user by the display name alone.
fn named(alloc: Global, config: &Config, id: u16) -> Result<Who, AllocError>
    ensures value { IfOk result (λ who. who ≡ spec.named config.now id) }
    ensures kept { IsConfiguration config.now }
{
    match config.user(id) {
        Some(user) => {
            let name = octets_of(alloc, &user.name)?;
            Ok(Who {
                user: id,
                name,
                uri: None,
            })
        }
        None => Ok(Who {
            user: id,
            name: None,
            uri: None,
        }),
    }
}

/// The user by the display name and the URI.
pub(crate) fn described(alloc: Global, config: &Config, id: u16) -> Result<Who, AllocError>
    ensures value { IfOk result (λ who. who ≡ spec.described config.now id) }
    ensures kept { IsConfiguration config.now }
    ensures range { id < 2 ^ 16 }
{
    match config.user(id) {
        Some(user) => {
            let name = octets_of(alloc, &user.name)?;
            let uri = octets_of(alloc, &user.uri)?;
            Ok(Who {
                user: id,
                name,
                uri,
            })
        }
        None => Ok(Who {
            user: id,
            name: None,
            uri: None,
        }),
    }
}

/// The requester, where it isn't the beneficiary.
fn requester_of(
    alloc: Global,
    config: &Config,
    request: &Request,
) -> Result<Option<Who>, AllocError>
    ensures value { IfOk result (λ who. who ≡ (if request.now.requester == request.now.beneficiary
        then None else Some (spec.named config.now request.now.requester))) }
    ensures range { request.now.requester < 2 ^ 16 }
{
    if request.requester == request.beneficiary {
        return Ok(None);
    }
    let who = named(alloc, config, request.requester)?;
    Ok(Some(who))
}

/// The status of an ongoing request.
pub(crate) fn ongoing_status(request: &Request) -> RequestStatus
    ensures { result ≡ overall_status (entry_of request.now) }
{
    if request.is_granted {
        RequestStatus::Granted
    } else if request.waits() {
        RequestStatus::Accepted
    } else {
        RequestStatus::Pending
    }
}

/// The status of a floor of an ongoing request.
fn floor_status(request: &Request, requested: &RequestedFloor) -> RequestStatus
    ensures { result ≡ spec.floor_status (entry_of request.now) requested.now }
{
    if request.is_granted {
        return RequestStatus::Granted;
    }
    match requested.status {
        FloorStatus::Accepted => RequestStatus::Accepted,
        FloorStatus::Pending => RequestStatus::Pending,
    }
}

/// A floor of a request that ended, with the status of the request.
fn ended_floor_shown(status: u8, requested: &RequestedFloor) -> (u16, Option<(u8, u8)>)
    ensures { result ≡ ended_floor_shown status requested.now }
{
    (requested.floor, Some((status, 0)))
}

/// The floors of a request that ended, each with the status of the request.
fn ended_floors_shown(
    alloc: Global,
    status: u8,
    request: &Request,
) -> Result<Vec<(u16, Option<(u8, u8)>)>, AllocError>
    ensures { IfOk result (λ shown. shown.items
        ≡ map (ended_floor_shown status) request.now.floors) }
{
    request
        .floors
        .as_slice()
        .iter()
        .map(|requested| ended_floor_shown(status, requested))
        .collect(alloc)
}

/// The queue position with which a floor is shown.
fn position_shown(shown: &(u16, Option<(u8, u8)>)) -> u8
    ensures { result ≡ position_shown shown.now }
{
    match shown.1 {
        Some(status) => status.1,
        None => 0,
    }
}

/// The greatest of the queue positions.
pub(crate) fn greatest_position(shown: &[(u16, Option<(u8, u8)>)]) -> u8
    ensures { result ≡ fold max 0 (map position_shown shown.now) }
{
    shown
        .iter()
        .map(|floor| position_shown(floor))
        .fold(0, |most, position| most.max(position))
}

/// A request with this status and these floors.
fn info_with(
    alloc: Global,
    config: &Config,
    request: &Request,
    status: u8,
    shown: Vec<(u16, Option<(u8, u8)>)>,
) -> Result<Info, AllocError>
    ensures value { IfOk result (λ info. info
        ≡ info_with config.now request.now status shown.items) }
    ensures kept { OnOk result (IsConfiguration config.now) }
    ensures numbers { OnOk result (HasNumbers request.now) }
{
    let beneficiary = named(alloc, config, request.beneficiary)?;
    let requester = requester_of(alloc, config, request)?;
    let reason = copied(alloc, &request.reason)?;
    let text = copied(alloc, &request.info)?;
    let position = greatest_position(&shown);
    Ok(Info {
        request: request.number,
        overall: Some((status, position)),
        reason,
        floors: FloorStatuses::from_vec(shown),
        beneficiary: Some(beneficiary),
        requester,
        priority: Some(request.priority),
        info: text,
    })
}

/// What is shown of a request that ended.
pub(crate) fn ended_info(alloc: Global, config: &Config, ended: &Ended) -> Result<Info, AllocError>
    requires { IsFit config.now.floors ended.now.request }
    ensures value { IfOk result (λ shown. shown
        ≡ info_of config.now [] (entry_of_ended ended.now)) }
    ensures shown { IfOk result IsShownInfo }
{
    let status = ended.ending.number();
    let floors = ended_floors_shown(alloc, status, &ended.request)?;
    info_with(alloc, config, &ended.request, status, floors)
}
