//! Who watches a conference from an earlier place on is told what it lacks, as it takes it.
#![tactic(auto, using(crate::proofs::Attended::attends_same, crate::proofs::Attended::attends_then))]

ghost use Rattle.floor_desk.specs.Attending.{Attends, beside};

use crate::caller::{Lack, PlaceOf};
use crate::callers::Callers;
use crate::desk::Desk;
use crate::meeting::Meeting;
use crate::telling::{place_behind, told_of};
use floor_clients::{CloseReason, Told};
use floor_loop::{Event, Loop};
use floor_shown::Follower;
use std::alloc::{AllocError, Global};

/// How many events are told between two deeds to a client that lacks some: our choice.
const MAX_FOLLOWED: usize = 64;

/// How much a client is told of what it lacks.
#[derive(Clone, Copy, Debug, PartialEq, Eq)]
enum Part {
    /// A few events, as long as it has room for them.
    Some,
    All,
}

/// A client that watches a conference from a place on lacks what is there already. After an error it is to be closed.
pub fn add_lack(
    desk: &mut Desk,
    socket: usize,
    conference: u32,
    from: u64,
) -> Result<(), AllocError>
    ensures attends { Attends beside desk.old.callers desk.new.callers }
{
    let Some(meeting) = desk.meetings.get(&conference) else {
        return Ok(());
    };
    if meeting.known.next() <= from {
        return Ok(());
    }
    let lack = Lack {
        conference,
        follower: Follower::new(desk.alloc, &meeting.opening)?,
    };
    desk.callers.add_lack(socket, lack)?;
    queue(desk, socket)
}

/// A client that lacks events and has room for some is told them, in its turn.
fn queue(desk: &mut Desk, socket: usize) -> Result<(), AllocError>
    ensures attends { Attends beside desk.old.callers desk.new.callers }
{
    if !desk.callers.is_lacking_any(socket) || !desk.callers.has_room(socket) {
        return Ok(());
    }
    if desk.lacking.iter().any(|other| *other == socket) {
        return Ok(());
    }
    desk.lacking.push_back(socket)?;
    Ok(())
}

/// The same; where memory is refused it is to be closed.
pub fn queue_or_close(desk: &mut Desk, socket: usize)
    ensures attends { Attends beside desk.old.callers desk.new.callers }
{
    if queue(desk, socket).is_err() {
        desk.callers.close(socket, CloseReason::Memory);
    }
}

/// Who lacks events is told a few, where it is its turn: every other time. Says whether it was.
pub fn tell_next(desk: &mut Desk, hub: &Loop) -> bool
    ensures attends { Attends beside desk.old.callers desk.new.callers }
{
    desk.is_turn_of_lacking = !desk.is_turn_of_lacking;
    if !desk.is_turn_of_lacking {
        return false;
    }
    let Some(socket) = desk.lacking.pop_front() else {
        return false;
    };
    tell_some_to(desk, hub, socket);
    true
}

fn tell_some_to(desk: &mut Desk, hub: &Loop, socket: usize)
    ensures attends { Attends beside desk.old.callers desk.new.callers }
{
    let Some(lack) = desk.callers.take_lack(socket, None) else {
        return;
    };
    tell_lack(desk, hub, socket, lack, Part::Some);
    queue_or_close(desk, socket);
}

/// Whoever lacks events of a conference is told them all, at once.
pub fn tell_all(desk: &mut Desk, hub: &Loop, conference: u32)
    ensures attends { Attends beside desk.old.callers desk.new.callers }
{
    for index in 0..desk.callers.len() {
        let socket = desk.callers.slot_of(index);
        tell_all_to(desk, hub, socket, conference);
    }
}

fn tell_all_to(desk: &mut Desk, hub: &Loop, socket: usize, conference: u32)
    ensures attends { Attends beside desk.old.callers desk.new.callers }
{
    let Some(lack) = desk.callers.take_lack(socket, Some(conference)) else {
        return;
    };
    tell_lack(desk, hub, socket, lack, Part::All);
}

/// A client is told what it lacks. What it lacks then is told later; where memory is refused it is to be closed.
fn tell_lack(desk: &mut Desk, hub: &Loop, socket: usize, mut lack: Lack, part: Part)
    ensures attends { Attends beside desk.old.callers desk.new.callers }
{
    let Ok(events) = hub.journal(lack.conference) else {
        return;
    };
    let Some(meeting) = desk.meetings.get(&lack.conference) else {
        return;
    };
    desk.has_told = true;
    let told = tell_part(
        desk.alloc,
        &mut desk.callers,
        socket,
        meeting,
        events,
        &mut lack.follower,
        part,
    );
    if told.is_err() {
        desk.callers.close(socket, CloseReason::Memory);
        return;
    }
    if lack.follower.place() < meeting.known.noted()
        && desk.callers.add_lack(socket, lack).is_err()
    {
        desk.callers.close(socket, CloseReason::Memory);
    }
}

/// The same, by the events of the conference.
fn tell_part(
    alloc: Global,
    callers: &mut Callers,
    socket: usize,
    meeting: &Meeting,
    events: &[Event],
    follower: &mut Follower,
    part: Part,
) -> Result<(), AllocError>
    ensures attends { Attends beside callers.old callers.new }
{
    let mut count = 0usize;
    for event in events.get(follower.place()..).unwrap_or(&[]) {
        if part == Part::Some && (MAX_FOLLOWED <= count || !callers.has_room(socket)) {
            break;
        }
        count = count.saturating_add(1);
        tell_event(alloc, callers, socket, meeting, event, follower)?;
    }
    Ok(())
}

/// The next event is followed. A client that is told its place next is told what it shows.
fn tell_event(
    alloc: Global,
    callers: &mut Callers,
    socket: usize,
    meeting: &Meeting,
    event: &Event,
    follower: &mut Follower,
) -> Result<(), AllocError>
    ensures attends { Attends beside callers.old callers.new }
{
    let told = place_behind(follower.place(), meeting);
    let shown = follower.take(event, meeting.known.time_at(told.place))?;
    if callers.next_of(socket, told.conference) != Some(told.place) {
        return Ok(());
    }
    let shown = told_of(alloc, shown)?;
    tell_place(callers, socket, told, &shown);
    tell_untold(callers, socket, &meeting.untold, told);
    Ok(())
}

/// A client is told what an event shows; one that shows nothing is past.
fn tell_place(callers: &mut Callers, socket: usize, told: PlaceOf, shown: &Option<Told>)
    ensures attends { Attends beside callers.old callers.new }
{
    match shown {
        Some(event) => callers.tell(socket, event),
        None => callers.pass(socket, told),
    }
}

/// What happened beside the events behind this place is told.
fn tell_untold(callers: &mut Callers, socket: usize, untold: &Vec<(u64, Told)>, told: PlaceOf)
    ensures attends { Attends beside callers.old callers.new }
{
    for one in untold {
        tell_where(callers, socket, one, told);
    }
}

fn tell_where(callers: &mut Callers, socket: usize, one: &(u64, Told), told: PlaceOf)
    ensures attends { Attends beside callers.old callers.new }
{
    if one.0 == told.place.saturating_add(1) {
        callers.tell(socket, &one.1);
    }
}
