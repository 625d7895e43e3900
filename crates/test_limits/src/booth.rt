//! The two million events of the journal of a conference behind its lock. Who leaves is closed, though the leave is
//! no event any more.

use crate::ended::Ended;
use crate::messages::frame;
use floor_config::Config;
use floor_room::{Frame, RoomRefusal};
use floor_serve::{Booth, Taken, Taker};
use std::alloc::Global;
use std::io::Write;
use std::sync::Wait;

/// The events of a full journal.
const MAX_EVENTS: u32 = 2_000_000;

/// An Error of user 10 in conference 1, which no client sends: it is an event, of which nobody is told.
const IGNORED: [u8; 12] = [0x20, 13, 0, 0, 0, 0, 0, 1, 0, 1, 0, 10];

/// What was done and found.
#[derive(Clone, Copy, Debug)]
struct Found {
    submitted: u32,
    events: u32,
    /// What the only member finds before it leaves.
    before: &'static str,
    /// What its leave is refused by.
    left: &'static str,
    /// What it finds then.
    after: &'static str,
}

/// Fills a journal, and prints what the only member finds before and after it left.
pub fn show<R: Wait, W: Write>(rt: &R, alloc: Global, output: &mut W) -> Result<(), Ended> {
    match filled(rt, alloc) {
        Some(found) => print(found, output),
        None => Err(Ended),
    }
}

fn filled<R: Wait>(rt: &R, alloc: Global) -> Option<Found> {
    let mut booth = opened(alloc)?;
    let message = frame(alloc, &IGNORED)?;
    let (n, mut taker) = joined(rt, &mut booth)?;
    let submitted = fill(rt, &mut booth, n, &message);
    let events = events(&booth);
    let before = waiting(rt, &mut taker);
    let left = left(rt, &mut booth, n);
    let after = waiting(rt, &mut taker);
    Some(Found {
        submitted,
        events,
        before,
        left,
        after,
    })
}

fn opened(alloc: Global) -> Option<Booth> {
    match Config::demonstration(alloc) {
        Ok(config) => Booth::new(alloc, config).ok(),
        Err(_) => None,
    }
}

fn joined<R: Wait>(rt: &R, booth: &mut Booth) -> Option<(u32, Taker)> {
    booth.join(rt, 10).ok()
}

/// Submits messages until the journal is full, and gives how many were taken.
fn fill<R: Wait>(rt: &R, booth: &mut Booth, n: u32, message: &Frame) -> u32 {
    let mut submitted = 0u32;
    for _place in 1..MAX_EVENTS {
        submitted = submitted.wrapping_add(submit(rt, booth, n, message));
    }
    submitted
}

/// One, if the message is taken.
fn submit<R: Wait>(rt: &R, booth: &mut Booth, n: u32, message: &Frame) -> u32 {
    match message.share() {
        Ok(message) => u32::from(booth.submit(rt, n, message).is_ok()),
        Err(_) => 0,
    }
}

fn events(booth: &Booth) -> u32 {
    booth.status().events
}

/// What the leave of a member is refused by.
fn left<R: Wait>(rt: &R, booth: &mut Booth, n: u32) -> &'static str {
    name(booth.part(rt, n).err())
}

fn name(refusal: Option<RoomRefusal>) -> &'static str {
    match refusal {
        None => "nothing",
        Some(refusal) => refusal.name(),
    }
}

/// What a taker finds.
fn waiting<R: Wait>(rt: &R, taker: &mut Taker) -> &'static str {
    match taker.take(rt) {
        Taken::Parcel(_) => "a parcel waits",
        Taken::Empty => "nothing waits",
        Taken::Closed => "closed",
    }
}

fn print<W: Write>(found: Found, output: &mut W) -> Result<(), Ended> {
    let Found {
        submitted,
        events,
        before,
        left,
        after,
    } = found;
    writeln!(
        output,
        "booth: {submitted} submitted, events {events}, {before}"
    )?;
    writeln!(output, "booth: a leave is refused by {left}, {after}")?;
    Ok(())
}
