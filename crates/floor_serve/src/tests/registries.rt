//! Two registries with the same conferences, and the seats of one given to the other.

use super::{HELLO, frame, joined, opened, opens, place_of};
use crate::*;
use std::alloc::Global;
use std::sync::Wait;
use std::test::*;
use std::thread;
use std::thread::Threads;

/// A request of user 10 for floor 1, in conference 2.
const OTHER_REQUEST: [u8; 16] = [0x20, 0x01, 0, 1, 0, 0, 0, 2, 0, 1, 0, 10, 4, 4, 0, 1];

/// A request of user 10 for floor 1, in conference 1.
const REQUEST: [u8; 16] = [0x20, 0x01, 0, 1, 0, 0, 0, 1, 0, 1, 0, 10, 4, 4, 0, 1];

/// A Hello of user 10 in conference 2.
const OTHER_HELLO: [u8; 12] = [0x20, 0x0b, 0, 0, 0, 0, 0, 2, 0, 1, 0, 10];

/// A registry whose conferences 1 and 2 have each a seat that submitted a message from a thread of
/// its own.
#[derive(Drop)]
struct Run {
    registry: Registry,
    seats: [Seat; 2],
    places: [Option<Place>; 2],
    journals: [String; 2],
}

/// A registry whose seats submitted these messages.
fn run_with<R: Threads + Wait + Sync>(
    rt: &R,
    alloc: Global,
    first: &[u8],
    second: &[u8],
) -> Result<Run, Fail> {
    let registry = Registry::new(alloc);
    let one = opens(rt, alloc, &registry, 1)?;
    let two = opens(rt, alloc, &registry, 2)?;
    let (mut ten, _taker) = joined(rt, &one, 10)?;
    let (mut other, _other_taker) = joined(rt, &two, 10)?;
    let message = frame(alloc, first)?;
    let other_message = frame(alloc, second)?;
    let (place, other_place) = thread::join(
        rt,
        || place_of(rt, &one, &mut ten, message, &FreePass),
        || place_of(rt, &two, &mut other, other_message, &FreePass),
    );
    let journals = [one.journal_text(rt)?, two.journal_text(rt)?];
    Ok(Run {
        registry,
        seats: [ten, other],
        places: [place, other_place],
        journals,
    })
}

#[test]
fn two_registries(rt: HostRuntime) -> Result<(), Fail> {
    let alloc = rt.alloc();
    let Run {
        registry,
        seats,
        places,
        journals,
    } = run_with(&rt, alloc, &HELLO, &OTHER_REQUEST)?;
    let Run {
        registry: other,
        seats: _,
        places: other_places,
        journals: other_journals,
    } = run_with(&rt, alloc, &REQUEST, &OTHER_HELLO)?;
    assert_eq!(rt; places, [Some(2), Some(2)]);
    assert_eq!(rt; other_places, [Some(2), Some(2)]);
    let cases = [
        (&journals[0], "200b0000000000010001000a"),
        (&journals[1], "20010001000000020001000a04040001"),
        (&other_journals[0], "20010001000000010001000a04040001"),
        (&other_journals[1], "200b0000000000020001000a"),
    ];
    for (journal, message) in cases {
        let wanted = format!(in alloc; "1 join 10\n2 message 1 {message}\nend 2\n")?;
        assert_eq!(rt; journal.as_str(), wanted.as_str());
    }
    let report = Report {
        seats: 2,
        events: 4,
    };
    assert_eq!(rt; finish(&rt, &registry, &seats), Ok(report));
    let mismatch = FinishFault::Mismatch {
        conference: 1,
        n: 1,
    };
    assert_eq!(rt; finish(&rt, &other, &seats), Err(mismatch));
    let alone = Report {
        seats: 1,
        events: 4,
    };
    assert_eq!(rt; finish(&rt, &registry, &seats[..1]), Ok(alone));
    Ok(())
}

#[test]
fn a_seat_of_no_conference_of_the_table_fits_nothing(rt: HostRuntime) -> Result<(), Fail> {
    let alloc = rt.alloc();
    let (registry, desk) = opened(&rt, alloc)?;
    let (fits, _taker) = joined(&rt, &desk, 10)?;
    let other = opens(&rt, alloc, &Registry::new(alloc), 2)?;
    let (stray, _other_taker) = joined(&rt, &other, 10)?;
    let seats = [fits, stray];
    let alone = Report {
        seats: 1,
        events: 1,
    };
    assert_eq!(rt; finish(&rt, &registry, &seats[..1]), Ok(alone));
    let mismatch = FinishFault::Mismatch {
        conference: 2,
        n: 1,
    };
    assert_eq!(rt; finish(&rt, &registry, &seats), Err(mismatch));
    let first = FinishFault::Mismatch {
        conference: 1,
        n: 1,
    };
    assert_eq!(rt; Table::new(alloc).finish(&rt, &seats), Err(first));
    Ok(())
}
