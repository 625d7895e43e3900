//! Conferences are watched: from a place on each, or from the next one.
#![tactic(auto, using(crate::proofs::Attended::attends_same, crate::proofs::Attended::attends_then, crate::proofs::Attended::beside_is_carried))]

ghost use Rattle.std.specs.Prelude.{◌≡◌};
ghost use Rattle.floor_desk.specs.Attending.{Attends, carried};

use crate::catching_up::add_lack;
use crate::desk::Desk;
use floor_loop::Loop;
use floor_rpc::{About, Answer, ErrorName, List, NextPlace, Unwatching, Watched, WatchedFrom};
use floor_shown::{Refused, Showing};
use std::alloc::AllocError;

/// `watch`: conferences are watched from these places on, and all others. What their next events change is to be gathered by
/// then, and `begin_showing` has begun.
pub fn watch(
    desk: &mut Desk,
    socket: usize,
    next: Vec<NextPlace>,
    all: bool,
) -> Result<Answer, Refused>
    ensures attends { Attends (carried socket) desk.old.callers desk.new.callers }
{
    for one in &next {
        watch_one(desk, socket, one)?;
    }
    if all {
        desk.callers.watch_all(socket, true);
    }
    Ok(Answer::Watched(WatchedFrom {
        next: List::from_vec(next),
    }))
}

/// What the next event of a conference shows will be known.
pub fn begin_showing(desk: &mut Desk, hub: &Loop, conference: u32) -> Result<(), AllocError>
    ensures callers { desk.new.callers ≡ desk.old.callers }
{
    let Some(meeting) = desk.meetings.get_mut(&conference) else {
        return Ok(());
    };
    if meeting.showing.is_none() {
        meeting.showing = Some(Showing::of_now(desk.alloc, hub, conference, &meeting.known)?);
    }
    Ok(())
}

/// The places from which on conferences are to be watched.
pub fn places_of(
    desk: &Desk,
    hub: &Loop,
    socket: usize,
    watched: &[Watched],
) -> Result<Vec<NextPlace>, Refused> {
    let mut next = Vec::new(desk.alloc);
    for one in watched {
        let place = place_of(desk, hub, socket, one)?;
        if is_among(&next, one.conference) {
            return Err(watching_already(one.conference));
        }
        next.push(NextPlace {
            conference: one.conference,
            next: place,
        })?;
    }
    Ok(next)
}

fn is_among(next: &Vec<NextPlace>, conference: u32) -> bool {
    next.iter().any(|other| other.conference == conference)
}

fn watching_already(conference: u32) -> Refused {
    Refused::of(ErrorName::Watching, About::Conference(conference))
}

/// The place from which on a conference is to be watched.
fn place_of(desk: &Desk, hub: &Loop, socket: usize, watched: &Watched) -> Result<u64, Refused> {
    let next = desk.known(hub, watched.conference)?.known.next();
    if desk.callers.next_of(socket, watched.conference).is_some() {
        return Err(watching_already(watched.conference));
    }
    match watched.from {
        None => Ok(next),
        Some(from) if 1 <= from && from <= next => Ok(from),
        Some(from) => Err(Refused::of(ErrorName::BadPlace, About::Place(from))),
    }
}

/// A conference is watched from a place on.
fn watch_one(desk: &mut Desk, socket: usize, from: &NextPlace) -> Result<(), AllocError>
    ensures attends { Attends (carried socket) desk.old.callers desk.new.callers }
{
    desk.callers.watch(socket, from.conference, from.next)?;
    add_lack(desk, socket, from.conference, from.next)
}

/// `unwatch`: conferences are watched no more, and all others.
pub fn unwatch(desk: &mut Desk, socket: usize, unwatching: &Unwatching) -> Result<Answer, Refused>
    ensures attends { Attends (carried socket) desk.old.callers desk.new.callers }
{
    for of in unwatching.conferences.as_slice() {
        desk.callers.unwatch(socket, of.conference);
    }
    if unwatching.all {
        desk.callers.watch_all(socket, false);
    }
    Ok(Answer::Done)
}
