//! Seats in threads of their own, one conference.

use super::{frame, joined, opened, submits};
use crate::*;
use std::alloc::Global;
use std::sync::Wait;
use std::test::*;
use std::thread;
use std::thread::Threads;

/// A request of user 10 for floor 1, and one of user 11.
const REQUESTS: [[u8; 16]; 2] = [
    [0x20, 0x01, 0, 1, 0, 0, 0, 1, 0, 1, 0, 10, 4, 4, 0, 1],
    [0x20, 0x01, 0, 1, 0, 0, 0, 1, 0, 1, 0, 11, 4, 4, 0, 1],
];

/// User 12 asks what has become of this request.
fn query(request: u8) -> [u8; 16] {
    [0x20, 0x03, 0, 1, 0, 0, 0, 1, 0, 1, 0, 12, 6, 4, 0, request]
}

/// Submits two messages, each from a thread of its own, and gives whether both were taken.
fn submit_both<R: Threads + Wait + Sync>(
    rt: &R,
    desk: &Desk,
    first: (&mut Seat, Frame),
    second: (&mut Seat, Frame),
) -> bool {
    let (ten, request) = first;
    let (eleven, other) = second;
    let (a, b) = thread::join(
        rt,
        || submits(rt, desk, ten, request),
        || submits(rt, desk, eleven, other),
    );
    a && b
}

/// A conference in which users 10 and 11 ask for the floor at once and 12 asks for a request, with
/// their three seats, that of 12 in front, and the parcel that 12 takes.
fn asked<R: Threads + Wait + Sync>(
    rt: &R,
    alloc: Global,
    request: u8,
) -> Result<(Registry, Desk, [Seat; 3], Parcel), Fail> {
    let (registry, desk) = opened(rt, alloc)?;
    let (mut ten, _first) = joined(rt, &desk, 10)?;
    let (mut eleven, _second) = joined(rt, &desk, 11)?;
    let (mut twelve, mut taker) = joined(rt, &desk, 12)?;
    let first = frame(alloc, &REQUESTS[0])?;
    let second = frame(alloc, &REQUESTS[1])?;
    if !submit_both(rt, &desk, (&mut ten, first), (&mut eleven, second)) {
        return Err(Fail::from("a request is refused"));
    }
    if !submits(rt, &desk, &mut twelve, frame(alloc, &query(request))?) {
        return Err(Fail::from("the query is refused"));
    }
    let Taken::Parcel(parcel) = taker.take(rt) else {
        return Err(Fail::from("no answer"));
    };
    Ok((registry, desk, [twelve, ten, eleven], parcel))
}

#[test]
fn seats_in_threads_fit_their_registry_alone(rt: HostRuntime) -> Result<(), Fail> {
    let alloc = rt.alloc();
    let (registry, desk, seats, parcel) = asked(&rt, alloc, 1)?;
    // A FloorRequestStatus: Granted, of 10 or 11.
    assert_eq!(rt; parcel.header().get(1).copied(), Some(4));
    assert_eq!(rt; parcel.payload().get(10).copied(), Some(3));
    let holder = parcel.payload().get(23).copied();
    assert!(rt; holder == Some(10) || holder == Some(11));
    assert_eq!(rt;
        finish(&rt, &registry, &seats),
        Ok(Report {
            seats: 3,
            events: 6
        })
    );
    assert!(rt; desk.journal_text(&rt)?.as_str().ends_with("\nend 6\n"));
    assert_eq!(rt;
        desk.status(&rt),
        Status {
            members: 3,
            ongoing: 2,
            events: 6,
            phase: Phase::Running
        }
    );
    let (other, _desk, _seats, _parcel) = asked(&rt, alloc, 2)?;
    assert_eq!(rt;
        finish(&rt, &other, &seats),
        Err(FinishFault::Mismatch {
            conference: 1,
            n: 3
        })
    );
    Ok(())
}
