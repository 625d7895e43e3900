//! FLOOR-REQUEST-STATUS as it is shown: a floor of a floor request, with its status where it has one
//! (RFC 8855, section 5.2.17).

ghost use Rattle.std.specs.Prelude.{◌≡◌, IfOk, OnOk, [], map, ◌∷◌};
ghost use Rattle.floor_message.specs.Picked.{groups};
ghost use Rattle.floor_message.specs.Tell.{floor_of};
ghost use Rattle.floor_message.specs.Written as spec;
ghost use Rattle.floor_message.specs.steps.Leaves.{Leaves};
ghost use Rattle.floor_message.specs.steps.Writing.{with_attrs};
ghost use Rattle.floor_wire.specs.Spelling.{IsWritable};
ghost use Rattle.floor_wire.specs.View.{attributes_of};

use crate::floor_statuses::FloorStatuses;
use crate::format::attributes::SHORT_ATTRIBUTE;
use crate::format::group::{GROUP_HEAD, group_of};
use crate::format::pair::first_pair;
use crate::format::request_status::put_status;
use crate::kind::{FLOOR_REQUEST_STATUS, REQUEST_STATUS};
use floor_wire::{AttrsView, FrameBuilder};
use std::alloc::{AllocError, Global};

/// The floors of a floor request, in order, with their statuses.
pub(crate) fn floor_statuses_of(
    alloc: Global,
    inside: &AttrsView,
) -> Result<FloorStatuses, AllocError>
    ensures { IfOk result (λ floors. floors
        ≡ map floor_of (groups FLOOR_REQUEST_STATUS inside.now)) }
{
    let mut floors = Vec::new(alloc);
    let mut rest = inside.copy();
    while let Some(attr) = rest.next() {
        if let Some((floor, within)) = group_of(&attr, FLOOR_REQUEST_STATUS) {
            floors.push((floor, first_pair(&within, REQUEST_STATUS)))?;
        }
    }
    Ok(FloorStatuses::from_vec(floors))
}

/// Adds a FLOOR-REQUEST-STATUS for each floor.
pub(crate) fn put_floor_statuses(
    out: &mut FrameBuilder,
    floors: &[(u16, Option<(u8, u8)>)],
) -> Result<(), AllocError>
    requires { IsWritable (attributes_of (map spec.floor_attr floors.now)) }
    ensures { OnOk result (out.new ≡ with_attrs out.old (map spec.floor_attr floors.now)) }
{
    for (floor, shown) in floors {
        put_floor_status(out, *floor, *shown)?;
    }
    Ok(())
}

/// Adds the FLOOR-REQUEST-STATUS of a floor.
pub(crate) fn put_floor_status(
    out: &mut FrameBuilder,
    floor: u16,
    shown: Option<(u8, u8)>,
) -> Result<(), AllocError>
    ensures { OnOk result (out.new ≡ with_attrs out.old (spec.floor_attr (floor, shown) ∷ [])) }
{
    let start = out.begin_group(FLOOR_REQUEST_STATUS, floor)?;
    put_status(out, shown)?;
    out.end_group(start);
    Ok(())
}

/// What is left of the room behind the FLOOR-REQUEST-STATUS of each floor.
pub(crate) fn after_floor_statuses(room: usize, floors: &[(u16, Option<(u8, u8)>)]) -> Option<usize>
    ensures { Leaves (map spec.floor_attr floors.now) room result }
{
    let mut left = room;
    for (floor, shown) in floors {
        left = after_floor_status(left, *floor, *shown)?;
    }
    Some(left)
}

fn after_floor_status(room: usize, floor: u16, shown: Option<(u8, u8)>) -> Option<usize>
    ensures { Leaves (spec.floor_attr (floor, shown) ∷ []) room result }
{
    match shown {
        Some(_) => room.checked_sub(GROUP_HEAD + SHORT_ATTRIBUTE),
        None => room.checked_sub(GROUP_HEAD),
    }
}
