//! FLOOR-REQUEST-INFORMATION: a floor request as it is shown (RFC 8855, section 5.2.15).

ghost use Rattle.std.specs.List.{list_any};
ghost use Rattle.std.specs.Prelude.{◌≡◌, ◌==◌, IfOk, OnOk, All, [], filter, map, ◌↔◌, IsTrue, ◌∷◌};
ghost use Rattle.floor_message.specs.Fits.{PriorityFits};
ghost use Rattle.floor_message.specs.Tell.{infos_of, info_of};
ghost use Rattle.floor_message.specs.Written as spec;
ghost use Rattle.floor_message.specs.steps.Leaves.{Leaves};
ghost use Rattle.floor_message.specs.steps.Writing.{with_attrs};
ghost use Rattle.floor_wire.specs.Spelling.{IsWritable};
ghost use Rattle.floor_wire.specs.View.{attributes_of};

use crate::format::floor_request_status::{
    after_floor_statuses, floor_statuses_of, put_floor_statuses,
};
use crate::format::group::{GROUP_HEAD, LONGEST_GROUP, group_of};
use crate::format::octets::{after_optional_octets, copied, first_copied, put_octets};
use crate::format::overall_request_status::{
    after_overall, overall_of, overall_reason, put_overall,
};
use crate::format::priority::{after_priority, priority_in, put_priority};
use crate::format::user_information::{after_who, first_who, put_who};
use crate::information::Info;
use crate::infos::Infos;
use crate::kind::{
    BENEFICIARY_INFORMATION, FLOOR_REQUEST_INFORMATION, PARTICIPANT_PROVIDED_INFO,
    REQUESTED_BY_INFORMATION,
};
use crate::shared_info::SharedInfo;
use floor_wire::{AttrsView, FrameBuilder};
use std::alloc::{AllocError, Global};

/// The floor requests that the attributes show, in order.
pub(crate) fn infos_of(alloc: Global, attrs: &AttrsView) -> Result<Infos, AllocError>
    ensures { IfOk result (λ infos. infos ≡ infos_of attrs.now) }
{
    let mut infos = Vec::new(alloc);
    let mut rest = attrs.copy();
    while let Some(attr) = rest.next() {
        if let Some((request, inside)) = group_of(&attr, FLOOR_REQUEST_INFORMATION) {
            infos.push(info_of(alloc, request, &inside)?)?;
        }
    }
    Ok(Infos::from_vec(infos))
}

/// The floor request that a FLOOR-REQUEST-INFORMATION shows.
pub(crate) fn info_of(alloc: Global, request: u16, inside: &AttrsView) -> Result<Info, AllocError>
    ensures { IfOk result (λ info. info ≡ info_of (request, inside.now)) }
{
    Ok(Info {
        request,
        overall: overall_of(inside),
        reason: copied(alloc, overall_reason(inside))?,
        floors: floor_statuses_of(alloc, inside)?,
        beneficiary: first_who(alloc, inside, BENEFICIARY_INFORMATION)?,
        requester: first_who(alloc, inside, REQUESTED_BY_INFORMATION)?,
        priority: priority_in(inside),
        info: first_copied(alloc, inside, PARTICIPANT_PROVIDED_INFO)?,
    })
}

/// Adds a FLOOR-REQUEST-INFORMATION for each floor request.
pub(crate) fn put_infos(out: &mut FrameBuilder, infos: &[Info]) -> Result<(), AllocError>
    requires priorities { All PriorityFits infos.now }
    requires writable { IsWritable (attributes_of (map spec.info_attr infos.now)) }
    ensures { OnOk result (out.new ≡ with_attrs out.old (map spec.info_attr infos.now)) }
{
    for info in infos {
        put_info(out, info)?;
    }
    Ok(())
}

/// Adds a FLOOR-REQUEST-INFORMATION for each floor request that names the floor.
pub(crate) fn put_infos_on(
    out: &mut FrameBuilder,
    floor: u16,
    infos: &[SharedInfo],
) -> Result<(), AllocError>
    requires priorities { All PriorityFits
        (filter (λ i. list_any (λ f. f.0 == floor) i.floors) infos.now) }
    requires writable { IsWritable (attributes_of (map spec.info_attr
        (filter (λ i. list_any (λ f. f.0 == floor) i.floors) infos.now))) }
    ensures { OnOk result (out.new ≡ with_attrs out.old (map spec.info_attr
        (filter (λ i. list_any (λ f. f.0 == floor) i.floors) infos.now))) }
{
    for shared in infos {
        let info = shared.as_info();
        if names(info, floor) {
            put_info(out, info)?;
        }
    }
    Ok(())
}

/// Whether the floor request that is shown names the floor.
fn names(info: &Info, floor: u16) -> bool
    ensures { result ≡ list_any (λ f. f.0 == floor) info.now.floors }
{
    info.floors.as_slice().iter().any(|f| f.0 == floor)
}

/// Adds FLOOR-REQUEST-INFORMATION.
pub(crate) fn put_info(out: &mut FrameBuilder, info: &Info) -> Result<(), AllocError>
    requires priority { PriorityFits info.now }
    requires writable { IsWritable (attributes_of (spec.info_attr info.now ∷ [])) }
    ensures { OnOk result (out.new ≡ with_attrs out.old (spec.info_attr info.now ∷ [])) }
{
    let start = out.begin_group(FLOOR_REQUEST_INFORMATION, info.request)?;
    put_info_parts(out, info)?;
    out.end_group(start);
    Ok(())
}

/// Adds what FLOOR-REQUEST-INFORMATION holds.
fn put_info_parts(out: &mut FrameBuilder, info: &Info) -> Result<(), AllocError>
    requires priority { PriorityFits info.now }
    requires writable { IsWritable (attributes_of (spec.info_attrs info.now)) }
    ensures { OnOk result (out.new ≡ with_attrs out.old (spec.info_attrs info.now)) }
{
    put_overall(out, info.request, info.overall, &info.reason)?;
    put_floor_statuses(out, info.floors.as_slice())?;
    put_who(out, BENEFICIARY_INFORMATION, &info.beneficiary)?;
    put_who(out, REQUESTED_BY_INFORMATION, &info.requester)?;
    put_priority(out, info.priority)?;
    put_octets(out, PARTICIPANT_PROVIDED_INFO, &info.info)
}

/// Whether each priority is at most 4.
pub(crate) fn priorities_fit(infos: &[Info]) -> bool
    ensures { IsTrue result ↔ All PriorityFits infos.now }
{
    for info in infos {
        if !priority_fits(info) {
            return false;
        }
    }
    true
}

/// Whether the priority, where there is one, is at most 4.
pub(crate) fn priority_fits(info: &Info) -> bool
    ensures { IsTrue result ↔ PriorityFits info.now }
{
    match info.priority {
        Some(priority) => priority <= 4,
        None => true,
    }
}

/// What is left of the room behind the FLOOR-REQUEST-INFORMATION of each floor request.
pub(crate) fn after_infos(room: usize, infos: &[Info]) -> Option<usize>
    requires { All PriorityFits infos.now }
    ensures { Leaves (map spec.info_attr infos.now) room result }
{
    let mut left = room;
    for info in infos {
        left = after_info(left, info)?;
    }
    Some(left)
}

/// What is left of the room behind the FLOOR-REQUEST-INFORMATION of each floor request that names
/// the floor.
pub(crate) fn after_infos_on(room: usize, floor: u16, infos: &[SharedInfo]) -> Option<usize>
    requires { All PriorityFits
        (filter (λ i. list_any (λ f. f.0 == floor) i.floors) infos.now) }
    ensures { Leaves (map spec.info_attr
        (filter (λ i. list_any (λ f. f.0 == floor) i.floors) infos.now)) room result }
{
    let mut left = room;
    for shared in infos {
        let info = shared.as_info();
        if names(info, floor) {
            left = after_info(left, info)?;
        }
    }
    Some(left)
}

/// What is left of the room behind FLOOR-REQUEST-INFORMATION.
pub(crate) fn after_info(room: usize, info: &Info) -> Option<usize>
    requires { PriorityFits info.now }
    ensures { Leaves (spec.info_attr info.now ∷ []) room result }
{
    // Read for its range: a Floor Request ID has 16 bits.
    let _request = info.request;
    let left = after_info_parts(LONGEST_GROUP - GROUP_HEAD, info)?;
    room.checked_sub(LONGEST_GROUP - left)
}

/// What is left of the room inside FLOOR-REQUEST-INFORMATION.
fn after_info_parts(room: usize, info: &Info) -> Option<usize>
    requires { PriorityFits info.now }
    ensures { Leaves (spec.info_attrs info.now) room result }
{
    let room = after_overall(room, info.request, info.overall, &info.reason)?;
    let room = after_floor_statuses(room, info.floors.as_slice())?;
    let room = after_who(room, &info.beneficiary)?;
    let room = after_who(room, &info.requester)?;
    let room = after_priority(room, info.priority)?;
    after_optional_octets(room, &info.info)
}
