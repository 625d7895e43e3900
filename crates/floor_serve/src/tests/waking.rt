//! Who wakes when an event tells several members.

use super::{frame, joined, leaves, opened, submits};
use crate::*;
use std::alloc::Global;
use std::sync::Wait;
use std::test::*;

/// A FloorQuery of this user, for floor 1.
fn query(user: u8) -> [u8; 16] {
    [0x20, 7, 0, 1, 0, 0, 0, 1, 0, 1, 0, user, 4, 4, 0, 1]
}

/// User 10 asks for floor 1.
const REQUEST: [u8; 16] = [0x20, 1, 0, 1, 0, 0, 0, 1, 0, 2, 0, 10, 4, 4, 0, 1];

/// The primitive of the parcel that waits, once its taker is woken: a taker that nobody wakes waits
/// for ever.
fn heard<R: Wait>(rt: &R, taker: &mut MemberTaker) -> Option<u8> {
    taker.wait(rt);
    match taker.take(rt) {
        Taken::Parcel(parcel) => parcel.header().get(1).copied(),
        Taken::Empty | Taken::Closed => None,
    }
}

/// A user who joins and watches floor 1, and has heard so.
fn watching<R: Wait>(
    rt: &R,
    alloc: Global,
    desk: &Desk,
    user: u8,
) -> Result<(Seat, MemberTaker), Fail> {
    let (mut seat, mut taker) = joined(rt, desk, u16::from(user))?;
    if !submits(rt, desk, &mut seat, frame(alloc, &query(user))?) {
        return Err(Fail::from("the query is refused"));
    }
    match heard(rt, &mut taker) {
        Some(8) => Ok((seat, taker)),
        Some(_) | None => Err(Fail::from("no FloorStatus")),
    }
}

/// User 10 asks for floor 1 among three members who watch it, and who joined in this order. Gives the
/// first of them who isn't told what it should be; a member that nobody wakes waits for ever.
fn missed<R: Wait>(rt: &R, alloc: Global, users: [u8; 3]) -> Result<Option<u8>, Fail> {
    let (_registry, desk) = opened(rt, alloc)?;
    let mut members = Vec::new(alloc);
    for user in users {
        members.push((user, watching(rt, alloc, &desk, user)?))?;
    }
    for (user, (seat, _)) in members.iter_mut() {
        if *user == 10 && !submits(rt, &desk, seat, frame(alloc, &REQUEST)?) {
            return Err(Fail::from("the request is refused"));
        }
    }
    for (user, (_, taker)) in members.iter_mut() {
        // A FloorRequestStatus for the requester, then a FloorStatus for each that watches.
        let wanted = if *user == 10 { 4 } else { 8 };
        if heard(rt, taker) != Some(wanted) {
            return Ok(Some(*user));
        }
    }
    Ok(None)
}

#[test]
fn each_member_whom_an_event_tells_wakes(rt: HostRuntime) -> Result<(), Fail> {
    for users in [[10, 11, 12], [11, 10, 12], [11, 12, 10]] {
        assert_eq!(rt;
            missed(&rt, rt.alloc(), users)?,
            None,
            "joined as {users:?}"
        );
    }
    Ok(())
}

#[test]
fn a_leave_wakes_whom_it_tells(rt: HostRuntime) -> Result<(), Fail> {
    let alloc = rt.alloc();
    let (_registry, desk) = opened(&rt, alloc)?;
    let (mut ten, _first) = joined(&rt, &desk, 10)?;
    let (_eleven, mut second) = watching(&rt, alloc, &desk, 11)?;
    assert!(rt; submits(&rt, &desk, &mut ten, frame(alloc, &REQUEST)?));
    assert_eq!(rt; heard(&rt, &mut second), Some(8), "the floor is held");
    assert!(rt; leaves(&rt, &desk, &mut ten));
    assert_eq!(rt; heard(&rt, &mut second), Some(8), "and free again");
    Ok(())
}
