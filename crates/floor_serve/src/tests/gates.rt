//! A conference that is held while others go on.

use super::{HELLO, answer_of, frame, joined, numbered, opens, place_of};
use crate::*;
use std::alloc::Global;
use std::sync::Wait;
use std::sync::atomic::{AtomicBool, Ordering};
use std::test::*;
use std::thread;

/// How often a thread asks at most whether it may go on.
const MAX_ASKS: u32 = 10_000_000;

/// A Hello of user 10 in conference 2.
const OTHER_HELLO: [u8; 12] = [0x20, 0x0b, 0, 0, 0, 0, 0, 2, 0, 1, 0, 10];

/// Holds conference 1 until it is let go, or has asked too often.
#[derive(Drop)]
struct Held {
    is_held: AtomicBool,
    lets_go: AtomicBool,
    gave_up: AtomicBool,
}

impl Held {
    /// The gate of a conference that isn't held yet.
    fn new() -> Held {
        Held {
            is_held: AtomicBool::new(false),
            lets_go: AtomicBool::new(false),
            gave_up: AtomicBool::new(false),
        }
    }
}

impl Gate for Held {
    fn pass(&self, conference: u32, _n: u32) {
        if conference != 1 {
            return;
        }
        self.is_held.store(true, Ordering::SeqCst);
        if !is_set(&self.lets_go) {
            self.gave_up.store(true, Ordering::SeqCst);
        }
    }
}

/// Whether the mark is found set before it was asked for too often.
fn is_set(mark: &AtomicBool) -> bool {
    for _ in 0..MAX_ASKS {
        if mark.load(Ordering::SeqCst) {
            return true;
        }
        thread::yield_now();
    }
    false
}

/// Whether a Hello in conference 2 is answered while conference 1 is held.
fn is_answered<R: Wait>(
    rt: &R,
    desk: &Desk,
    seat: &mut Seat,
    taker: &mut MemberTaker,
    hello: Frame,
    gate: &Held,
) -> bool {
    is_set(&gate.is_held)
        && place_of(rt, desk, seat, hello, gate) == Some(2)
        && matches!(taker.take(rt), Taken::Parcel(_))
}

#[test]
fn gate_two_conferences(rt: HostRuntime) -> Result<(), Fail> {
    let alloc = rt.alloc();
    let registry = Registry::new(alloc);
    let desk = opens(&rt, alloc, &registry, 1)?;
    let other = opens(&rt, alloc, &registry, 2)?;
    let (mut seat, _taker) = joined(&rt, &desk, 10)?;
    let (mut free, mut taker) = joined(&rt, &other, 10)?;
    let hello = frame(alloc, &HELLO)?;
    let other_hello = frame(alloc, &OTHER_HELLO)?;
    let gate = Held::new();
    let (place, answered) = thread::join(
        &rt,
        || place_of(&rt, &desk, &mut seat, hello, &gate),
        || {
            let answered = is_answered(&rt, &other, &mut free, &mut taker, other_hello, &gate);
            gate.lets_go.store(true, Ordering::SeqCst);
            answered
        },
    );
    assert!(rt; answered);
    assert_eq!(rt; place, Some(2));
    assert!(rt; !gate.gave_up.load(Ordering::SeqCst));
    Ok(())
}

/// Why a second Hello is refused in conference 2, which is opened, answers the first and is closed
/// while conference 1 is held.
fn refusal_at_the_end<R: Wait>(
    rt: &R,
    registry: &Registry,
    config: Config,
    hellos: (Frame, Frame),
    gate: &Held,
) -> Option<RoomRefusal> {
    if !is_set(&gate.is_held) {
        return None;
    }
    registry.open(rt, config).ok()?;
    let desk = registry.desk(rt, 2).ok()?;
    let (mut seat, mut taker) = desk.join(rt, 10).ok()?;
    let (first, second) = hellos;
    if !is_answered(rt, &desk, &mut seat, &mut taker, first, gate) {
        return None;
    }
    desk.admin(rt, Act::Close).ok()?;
    answer_of(rt, &desk, &mut seat, second, gate)?.err()
}

#[test]
fn gate_open_close(rt: HostRuntime) -> Result<(), Fail> {
    let alloc = rt.alloc();
    let registry = Registry::new(alloc);
    let desk = opens(&rt, alloc, &registry, 1)?;
    let (mut seat, _taker) = joined(&rt, &desk, 10)?;
    let hello = frame(alloc, &HELLO)?;
    let config = numbered(alloc, 2)?;
    let hellos = (frame(alloc, &OTHER_HELLO)?, frame(alloc, &OTHER_HELLO)?);
    let gate = Held::new();
    let (place, refusal) = thread::join(
        &rt,
        || place_of(&rt, &desk, &mut seat, hello, &gate),
        || {
            let refusal = refusal_at_the_end(&rt, &registry, config, hellos, &gate);
            gate.lets_go.store(true, Ordering::SeqCst);
            refusal
        },
    );
    assert_eq!(rt; refusal, Some(RoomRefusal::Refused(Refusal::Ended)));
    assert_eq!(rt; place, Some(2));
    assert!(rt; !gate.gave_up.load(Ordering::SeqCst));
    Ok(())
}
