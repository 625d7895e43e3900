//! Members that leave, one after another.

use super::{HELLO, HELLO_ACK, frame, joined, leaves, opened, submits};
use crate::*;
use std::alloc::Global;
use std::sync::Wait;
use std::test::*;

/// How many members come and leave.
const MEMBERS: u32 = 1_001;

/// Whether the taker finds the answer to a Hello.
fn is_answered<R: Wait>(rt: &R, taker: &mut MemberTaker) -> bool {
    match taker.take(rt) {
        Taken::Parcel(parcel) => {
            parcel.header() == &HELLO_ACK[..12] && parcel.payload() == &HELLO_ACK[12..]
        }
        Taken::Empty | Taken::Closed => false,
    }
}

/// The seat of user 10, who joins, sends a Hello, hears the answer and leaves.
fn came_and_left<R: Wait>(rt: &R, alloc: Global, desk: &Desk) -> Result<Seat, Fail> {
    let (mut seat, mut taker) = joined(rt, desk, 10)?;
    if !submits(rt, desk, &mut seat, frame(alloc, &HELLO)?) || !is_answered(rt, &mut taker) {
        return Err(Fail::from("a Hello isn't answered"));
    }
    if !matches!(taker.take(rt), Taken::Empty) || !leaves(rt, desk, &mut seat) {
        return Err(Fail::from("a member doesn't leave"));
    }
    if !matches!(taker.take(rt), Taken::Closed) {
        return Err(Fail::from("a member that left isn't closed"));
    }
    Ok(seat)
}

#[test]
fn members_come_and_leave_a_thousand_times(rt: HostRuntime) -> Result<(), Fail> {
    let alloc = rt.alloc();
    let (registry, desk) = opened(&rt, alloc)?;
    let mut seats = Vec::new(alloc);
    for _ in 0..MEMBERS {
        seats.push(came_and_left(&rt, alloc, &desk)?)?;
    }
    let text = desk.journal_text(&rt)?;
    assert_eq!(rt; text.lines().count(), 3_004);
    assert!(rt;
        text.as_str().ends_with(
            "\n3002 message 1001 200b0000000000010001000a\n3003 leave 1001\nend 3003\n"
        )
    );
    assert_eq!(rt;
        desk.status(&rt),
        Status {
            members: 0,
            ongoing: 0,
            events: 3_003,
            phase: Phase::Running
        }
    );
    assert_eq!(rt;
        finish(&rt, &registry, &seats),
        Ok(Report {
            seats: 1_001,
            events: 3_003
        })
    );
    Ok(())
}

#[test]
fn a_taker_that_waits_goes_on_where_its_member_leaves(rt: HostRuntime) -> Result<(), Fail> {
    let alloc = rt.alloc();
    let (_registry, desk) = opened(&rt, alloc)?;
    let (mut seat, mut taker) = joined(&rt, &desk, 10)?;
    assert!(rt; matches!(taker.take(&rt), Taken::Empty));
    assert!(rt; leaves(&rt, &desk, &mut seat));
    taker.wait(&rt);
    assert!(rt; matches!(taker.take(&rt), Taken::Closed));
    Ok(())
}
