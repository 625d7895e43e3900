//! The line of a floor, by the floor requests that are shown.

use crate::cases::assert_told;
use floor_control::{Floor, SharedInfo, add_floor};
use floor_message::{FloorStatuses, Info, Who};
use std::alloc::{AllocError, Global};

/// The numbers of statuses (RFC 8855, section 5.2.5).
const PENDING: u8 = 1;

const ACCEPTED: u8 = 2;

const GRANTED: u8 = 3;

#[test]
fn a_floor_has_its_holders_its_queue_and_who_else_asks(rt: HostRuntime) {
    let wanted = "floor 3 room 2 chair 10 holders 1:11 7:17 waiting 6:16 4:14 pending 2:12 5:15
floor 4 room 1 chair - pending 5:15
floor 5 room 1 chair -
";
    assert_told(&rt, lines(rt.alloc()), wanted);
}

fn lines(alloc: Global) -> Result<String, AllocError> {
    let mut shown = Vec::new(alloc);
    shown.push(info(alloc, 1, &[(3, Some((GRANTED, 0)))])?)?;
    shown.push(info(alloc, 2, &[(3, Some((PENDING, 0)))])?)?;
    shown.push(info(alloc, 4, &[(3, Some((ACCEPTED, 2)))])?)?;
    shown.push(info(
        alloc,
        5,
        &[(4, Some((PENDING, 0))), (3, Some((ACCEPTED, 0)))],
    )?)?;
    shown.push(info(alloc, 6, &[(3, Some((ACCEPTED, 1)))])?)?;
    shown.push(info(alloc, 7, &[(3, Some((GRANTED, 0)))])?)?;
    let mut out = String::new(alloc);
    add_floor(&mut out, &floor(3, 2, Some(10)), &shown)?;
    add_floor(&mut out, &floor(4, 1, None), &shown)?;
    add_floor(&mut out, &floor(5, 1, None), &shown)?;
    Ok(out)
}

fn floor(id: u16, room: u16, chair: Option<u16>) -> Floor {
    Floor { id, room, chair }
}

/// A floor request for the user whose id is 10 more than its number.
fn info(
    alloc: Global,
    request: u16,
    floors: &[(u16, Option<(u8, u8)>)],
) -> Result<SharedInfo, AllocError> {
    let beneficiary = Who {
        user: request.saturating_add(10),
        name: None,
        uri: None,
    };
    let info = Info {
        request,
        overall: None,
        reason: None,
        floors: FloorStatuses::from_vec(Vec::from_slice(alloc, floors)?),
        beneficiary: Some(beneficiary),
        requester: None,
        priority: None,
        info: None,
    };
    SharedInfo::new(alloc, info)
}
