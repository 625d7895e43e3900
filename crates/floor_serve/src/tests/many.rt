//! Many seats of several conferences at the end, in whatever order they come.

use super::{frame, joined, leaves, opens, place_of};
use crate::*;
use std::alloc::Global;
use std::sync::Wait;
use std::test::*;

/// How many conferences there are, and how many connections each has one after another.
const CONFERENCES: u8 = 3;

const CONNECTIONS: u32 = 100;

/// A Hello of user 10, and a FloorQuery.
fn message(alloc: Global, primitive: u8, conference: u8) -> Result<Frame, Fail> {
    frame(
        alloc,
        &[0x20, primitive, 0, 0, 0, 0, 0, conference, 0, 1, 0, 10],
    )
}

/// The seats of connections that came, sent a message and left, of each conference in turn. That of
/// the fifth connection of conference 2 is given.
fn came_and_left<R: Wait>(
    rt: &R,
    alloc: Global,
    primitive: u8,
) -> Result<(Registry, Vec<Seat>), Fail> {
    let registry = Registry::new(alloc);
    let mut desks = Vec::new(alloc);
    for conference in 1..=CONFERENCES {
        desks.push(opens(rt, alloc, &registry, u32::from(conference))?)?;
    }
    let mut seats = Vec::new(alloc);
    for turn in 1..=CONNECTIONS {
        for (desk, conference) in desks.iter().zip(1..=CONFERENCES) {
            let sent = if turn == 5 && conference == 2 {
                message(alloc, primitive, conference)?
            } else {
                message(alloc, 11, conference)?
            };
            let (mut seat, _taker) = joined(rt, desk, 10)?;
            place_of(rt, desk, &mut seat, sent, &FreePass).ok_or("a message is refused")?;
            if !leaves(rt, desk, &mut seat) {
                return Err(Fail::from("a member doesn't leave"));
            }
            seats.push(seat)?;
        }
    }
    Ok((registry, seats))
}

#[test]
fn many_seats_fit_in_any_order(rt: HostRuntime) -> Result<(), Fail> {
    let alloc = rt.alloc();
    let (registry, mut seats) = came_and_left(&rt, alloc, 11)?;
    let report = Report {
        seats: 300,
        events: 900,
    };
    assert_eq!(rt; finish(&rt, &registry, &seats), Ok(report), "as they came");
    seats.sort_unstable_by_key(|seat| (seat.conference(), seat.n()));
    assert_eq!(rt; finish(&rt, &registry, &seats), Ok(report), "in order");
    let (other, _seats) = came_and_left(&rt, alloc, 7)?;
    let mismatch = FinishFault::Mismatch {
        conference: 2,
        n: 5,
    };
    assert_eq!(rt;
        finish(&rt, &other, &seats),
        Err(mismatch),
        "of another registry"
    );
    let fewer = Report {
        seats: 299,
        events: 900,
    };
    let but_first = seats.get(1..).ok_or("no seats")?;
    assert_eq!(rt;
        finish(&rt, &registry, but_first),
        Ok(fewer),
        "but the first"
    );
    Ok(())
}
