//! An outbox whose two ends are in two threads: nothing that was put before the closed mark is lost,
//! and who sleeps wakes by it.

use super::{HELLO, frame};
use crate::*;
use floor_outbox::pair;
use std::alloc::Global;
use std::sync::Wait;
use std::sync::atomic::{AtomicU32, Ordering};
use std::test::*;
use std::thread;
use std::thread::Threads;

/// How many pairs of threads run side by side: more threads than processors, so that each is stopped here and there
/// while the other one of its pair runs on.
const PAIRS: u32 = 8;

/// How many outboxes a pair closes.
const OUTBOXES: u32 = 5_000;

/// How long a thread lingers, so that the other one looks or sleeps meanwhile.
const LINGERS: u32 = 300;

/// How a taker waits until there is more.
#[derive(Clone, Copy)]
enum Waiting {
    /// It looks again at once.
    Looks,
    /// It sleeps.
    Sleeps,
}

/// Counts up for a while.
fn linger(count: &AtomicU32) {
    for _ in 0..LINGERS {
        count.fetch_add(1, Ordering::SeqCst);
    }
}

/// Puts a parcel by each sender and closes it: at once where the taker looks, and where it sleeps, when
/// it may be asleep again. Gives whether all were put.
fn close_each<R: Wait>(rt: &R, senders: Vec<(Sender, Frame)>, waiting: Waiting) -> bool {
    let count = AtomicU32::new(0);
    for (mut sender, hello) in senders {
        linger(&count);
        if sender.put(rt, Parcel::new(1, hello)).is_err() {
            return false;
        }
        match waiting {
            Waiting::Looks => {}
            Waiting::Sleeps => linger(&count),
        }
        sender.close();
    }
    true
}

/// How many parcels a taker takes until it is closed.
fn taken_of<R: Wait>(rt: &R, taker: &mut Taker, waiting: Waiting) -> u32 {
    let mut parcels = 0u32;
    for _ in rt.forever() {
        match taker.take(rt) {
            Taken::Parcel(_) => parcels = parcels.saturating_add(1),
            Taken::Empty => match waiting {
                Waiting::Looks => {}
                Waiting::Sleeps => taker.wait(rt),
            },
            Taken::Closed => return parcels,
        }
    }
    unreachable!()
}

/// Takes what each taker has until it is closed. Gives how many of them took one parcel.
fn take_each<R: Wait>(rt: &R, takers: Vec<Taker>, waiting: Waiting) -> u32 {
    let mut whole = 0u32;
    for mut taker in takers {
        if taken_of(rt, &mut taker, waiting) == 1 {
            whole = whole.saturating_add(1);
        }
    }
    whole
}

/// The ends of so many outboxes, and a Hello for each.
fn outboxes(alloc: Global) -> Result<(Vec<(Sender, Frame)>, Vec<Taker>), Fail> {
    let hello = frame(alloc, &HELLO)?;
    let mut senders = Vec::new(alloc);
    let mut takers = Vec::new(alloc);
    for _ in 0..OUTBOXES {
        let (sender, taker) = pair(alloc)?;
        senders.push((sender, hello.share()?))?;
        takers.push(taker)?;
    }
    Ok((senders, takers))
}

/// How many outboxes of a pair of threads are taken whole, none where one couldn't be put into.
fn whole_of<R: Threads + Wait + Sync>(
    rt: &R,
    senders: Vec<(Sender, Frame)>,
    takers: Vec<Taker>,
    waiting: Waiting,
) -> u32 {
    let (put, whole) = thread::join(
        rt,
        || close_each(rt, senders, waiting),
        || take_each(rt, takers, waiting),
    );
    if put { whole } else { 0 }
}

#[test]
fn what_is_put_before_the_mark_is_taken(rt: HostRuntime) -> Result<(), Fail> {
    let alloc = rt.alloc();
    for waiting in [Waiting::Looks, Waiting::Sleeps] {
        let mut ends = Vec::new(alloc);
        for _ in 0..PAIRS {
            ends.push(outboxes(alloc)?)?;
        }
        let mut pairs = Vec::new(alloc);
        for (senders, takers) in ends {
            let pair = thread::spawn(&rt, move || whole_of(&rt, senders, takers, waiting))?;
            pairs.push(pair)?;
        }
        for pair in pairs {
            assert_eq!(rt; pair.join(&rt), OUTBOXES);
        }
    }
    Ok(())
}
