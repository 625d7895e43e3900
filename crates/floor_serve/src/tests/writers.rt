//! Writers in threads of their own, whose bytes are what the journal calls for.

ghost use Rattle.std.specs.Prelude.{None};

use super::{joined, opened, submits};
use crate::*;
use floor_room::replay;
use std::alloc::Global;
use std::sync::{Mutex, Wait};
use std::test::*;
use std::thread;
use std::thread::Threads;

/// How often a thread asks at most whether it may go on.
const MAX_ASKS: u32 = 1_000_000;

/// How many Hellos each user sends.
const HELLOS: u8 = 200;

/// Keeps what is written where another thread reads it.
#[derive(Drop)]
struct Kept<'a, R> {
    rt: &'a R,
    bytes: &'a Mutex<Vec<u8>>,
    failed: bool,
}

impl<R: Wait> Sink for Kept<'_, R> {
    ghost contents = { λ _. None };

    ghost marked = { λ s. s.failed };

    fn write(&mut self, bytes: &[u8]) -> Option<usize> {
        match self.bytes.lock(self.rt).extend_from_slice(bytes) {
            Ok(()) => Some(bytes.len()),
            Err(_) => {
                self.failed = true;
                None
            }
        }
    }

    fn failed(&self) -> bool {
        self.failed
    }
}

/// What the writer of a member wrote, once its taker is closed.
fn writes<R: Wait>(
    rt: &R,
    alloc: Global,
    bytes: &Mutex<Vec<u8>>,
    taker: &mut MemberTaker,
) -> Result<Written, WriteFault> {
    let mut sink = Kept {
        rt,
        bytes,
        failed: false,
    };
    write_loop(rt, alloc, &mut sink, taker)
}

/// What was written so far.
fn copied<R: Wait>(rt: &R, alloc: Global, bytes: &Mutex<Vec<u8>>) -> Option<Vec<u8>> {
    match Vec::from_slice(alloc, bytes.lock(rt).as_slice()) {
        Ok(copy) => Some(copy),
        Err(_) => None,
    }
}

/// Whether the Hellos of the user are taken.
fn hellos<R: Wait>(rt: &R, alloc: Global, desk: &Desk, seat: &mut Seat, user: u8) -> bool {
    for transaction in 1..=HELLOS {
        let bytes = [0x20, 0x0b, 0, 0, 0, 0, 0, 1, 0, transaction, 0, user];
        let Ok(Some(hello)) = Frame::of(alloc, &bytes) else {
            return false;
        };
        if !submits(rt, desk, seat, hello) {
            return false;
        }
    }
    true
}

/// Whether both seats leave.
fn leave_both<R: Wait>(rt: &R, desk: &Desk, seats: &mut [Seat; 2]) -> bool {
    let mut left = true;
    for seat in seats.iter_mut() {
        if seat.conference() != desk.conference() {
            return false;
        }
        left = desk.leave(rt, seat).is_ok() && left;
    }
    left
}

/// How many parcels to the member the journal of the registry's conference acknowledges.
fn acknowledged<R: Wait>(rt: &R, registry: &Registry, member: u32) -> u32 {
    let table = registry.table.lock(rt);
    let Some(slot) = table.slots.first() else {
        return 0;
    };
    let booth = slot.booth.lock(rt);
    let mut sum = 0u32;
    for event in booth.journal() {
        match event {
            Event::Took { n, k } if *n == member => sum = sum.saturating_add(*k),
            _ => {}
        }
    }
    sum
}

/// Whether the answer to each Hello is found acknowledged before it was asked for too often.
fn are_acknowledged<R: Wait>(rt: &R, registry: &Registry) -> bool {
    for _ in 0..MAX_ASKS {
        let first = acknowledged(rt, registry, 1);
        let second = acknowledged(rt, registry, 2);
        if first == u32::from(HELLOS) && second == u32::from(HELLOS) {
            return true;
        }
        thread::yield_now();
    }
    false
}

/// What the journal of the registry's conference calls for at the member.
fn called_for<R: Wait>(
    rt: &R,
    alloc: Global,
    registry: &Registry,
    n: u32,
) -> Result<Vec<u8>, Fail> {
    let config = Config::demonstration(alloc)?;
    let table = registry.table.lock(rt);
    let slot = table.slots.first().ok_or("no conference")?;
    let booth = slot.booth.lock(rt);
    match replay(alloc, &config, booth.journal(), n) {
        Ok(bytes) => Ok(bytes),
        Err(_) => Err(Fail::from("no journal")),
    }
}

#[test]
fn taken_is_replay(rt: HostRuntime) -> Result<(), Fail> {
    let alloc = rt.alloc();
    let (registry, desk) = opened(&rt, alloc)?;
    let (mut ten, mut first) = joined(&rt, &desk, 10)?;
    let (mut eleven, mut second) = joined(&rt, &desk, 11)?;
    let wrote = [Mutex::new(Vec::new(alloc)), Mutex::new(Vec::new(alloc))];
    let (written, parts) = thread::join(
        &rt,
        || {
            thread::join(
                &rt,
                || writes(&rt, alloc, &wrote[0], &mut first),
                || writes(&rt, alloc, &wrote[1], &mut second),
            )
        },
        || {
            let taken = thread::join(
                &rt,
                || hellos(&rt, alloc, &desk, &mut ten, 10),
                || hellos(&rt, alloc, &desk, &mut eleven, 11),
            );
            let parts = (copied(&rt, alloc, &wrote[0]), copied(&rt, alloc, &wrote[1]));
            // While both are members, so that the journal has all that their writers acknowledge.
            let heard = taken == (true, true) && are_acknowledged(&rt, &registry);
            let mut seats = [ten, eleven];
            let left = leave_both(&rt, &desk, &mut seats);
            if heard && left { Some(parts) } else { None }
        },
    );
    let all = Ok(Written {
        parcels: 200,
        bytes: 9600,
    });
    assert_eq!(rt; written, (all, all));
    let (first_part, second_part) = parts.ok_or("a message is refused or not acknowledged")?;
    let calls = [
        called_for(&rt, alloc, &registry, 1)?,
        called_for(&rt, alloc, &registry, 2)?,
    ];
    assert!(rt; calls[0].starts_with(&first_part.ok_or("no memory")?));
    assert!(rt; calls[1].starts_with(&second_part.ok_or("no memory")?));
    assert!(rt; *wrote[0].lock(&rt) == calls[0]);
    assert!(rt; *wrote[1].lock(&rt) == calls[1]);
    Ok(())
}
