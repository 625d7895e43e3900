//! What the events of a conference show is told to who watches it, and what happens beside them.
#![tactic(auto, using(crate::proofs::Attended::attends_same, crate::proofs::Attended::attends_then))]

ghost use Rattle.std.specs.Prelude.{◌≡◌};
ghost use Rattle.floor_desk.specs.Attending.{Attends, beside};

use crate::caller::PlaceOf;
use crate::callers::Callers;
use crate::desk::Desk;
use crate::meeting::Meeting;
use crate::standing::see_to_last;
use floor_clients::Told;
use floor_loop::{Event, Loop, News};
use floor_room::Phase;
use floor_rpc::{EventTold, Happened, ServerTold};
use floor_shown::Showing;
use std::alloc::{AllocError, Global};

/// The journal of a conference may have grown: that is noted, and who watches it is told.
pub fn note(desk: &mut Desk, hub: &Loop, conference: u32)
    ensures attends { Attends beside desk.old.callers desk.new.callers }
{
    note_events(desk, hub, conference);
    note_phase(desk, hub, conference);
}

/// Its events behind those that were noted are noted, and told.
fn note_events(desk: &mut Desk, hub: &Loop, conference: u32)
    ensures attends { Attends beside desk.old.callers desk.new.callers }
{
    let Ok(events) = hub.journal(conference) else {
        return;
    };
    let Ok(shown) = hub.shown(conference) else {
        return;
    };
    let Some(meeting) = desk.meetings.get_mut(&conference) else {
        return;
    };
    let before = meeting.known.noted();
    let new = events.get(before..).unwrap_or(&[]);
    if new.is_empty() {
        return;
    }
    meeting.known.note(events, shown, desk.now.unix_millis);
    desk.events = desk.events.saturating_add(new.len() as u64);
    desk.joins = desk.joins.saturating_add(joins_in(new));
    if !hub.is_watched(conference) {
        meeting.showing = None;
        return;
    }
    desk.has_told = true;
    if tell_events(desk.alloc, &mut desk.callers, meeting, new, hub.news()).is_err() {
        desk.callers.close_watching(conference);
    }
}

/// How many of these events are joins.
fn joins_in(events: &[Event]) -> u64 {
    events
        .iter()
        .filter(|event| event.joiner().is_some())
        .count() as u64
}

/// What new events show is told to who watches, by what was gathered of them. After an error nothing is known any more by
/// which the next ones were shown.
fn tell_events(
    alloc: Global,
    callers: &mut Callers,
    meeting: &mut Meeting,
    events: &[Event],
    news: &[News],
) -> Result<(), AllocError>
    ensures attends { Attends beside callers.old callers.new }
{
    let Some(mut showing) = meeting.showing.take() else {
        return Err(AllocError);
    };
    for event in events {
        tell_event(alloc, callers, meeting, event, news, &mut showing)?;
    }
    meeting.showing = Some(showing);
    Ok(())
}

/// What the next event shows is told to who watches.
fn tell_event(
    alloc: Global,
    callers: &mut Callers,
    meeting: &Meeting,
    event: &Event,
    news: &[News],
    showing: &mut Showing,
) -> Result<(), AllocError>
    ensures attends { Attends beside callers.old callers.new }
{
    let told = place_behind(showing.place(), meeting);
    let Some(news) = news_at(news, told) else {
        return Err(AllocError);
    };
    let time = meeting.known.time_at(told.place);
    let shown = showing.take(event, &news.changed, &news.cut, time)?;
    tell_shown(alloc, callers, told, shown)
}

/// What was gathered of the event at a place.
fn news_at(news: &[News], told: PlaceOf) -> Option<&News> {
    news.iter().find(|one| is_at(one, told))
}

fn is_at(news: &News, told: PlaceOf) -> bool {
    news.conference == told.conference && news.place == told.place
}

/// The place of the event behind this many.
pub fn place_behind(count: usize, meeting: &Meeting) -> PlaceOf {
    PlaceOf {
        conference: meeting.opening.conference(),
        place: (count as u64).saturating_add(1),
    }
}

/// What an event shows is told to who watches; one that shows nothing is past.
fn tell_shown(
    alloc: Global,
    callers: &mut Callers,
    told: PlaceOf,
    shown: Option<EventTold>,
) -> Result<(), AllocError>
    ensures attends { Attends beside callers.old callers.new }
{
    match told_of(alloc, shown)? {
        Some(told) => callers.tell_all(&told),
        None => callers.pass_all(told),
    }
    Ok(())
}

/// What an event shows, as it is told.
pub fn told_of(alloc: Global, shown: Option<EventTold>) -> Result<Option<Told>, AllocError> {
    match shown {
        // No journal is so long.
        Some(event) if event.place == u64::MAX => Ok(None),
        Some(event) => Ok(Some(Told::of_event(alloc, event)?)),
        None => Ok(None),
    }
}

/// A conference that isn't open any more is counted so, once; that it is broken off is told.
fn note_phase(desk: &mut Desk, hub: &Loop, conference: u32)
    ensures attends { Attends beside desk.old.callers desk.new.callers }
{
    let phase = match hub.status(conference) {
        Ok(status) => status.phase,
        Err(_) => return,
    };
    if phase == Phase::Running {
        return;
    }
    note_end(desk, conference);
    if phase == Phase::Broken {
        note_broken(desk, conference);
    }
}

/// A conference isn't open any more.
fn note_end(desk: &mut Desk, conference: u32)
    ensures callers { desk.new.callers ≡ desk.old.callers }
{
    let Some(meeting) = desk.meetings.get_mut(&conference) else {
        return;
    };
    if !meeting.is_open {
        return;
    }
    meeting.is_open = false;
    desk.open = desk.open.saturating_sub(1);
    see_to_last(desk);
}

/// That a conference is broken off is told, once.
fn note_broken(desk: &mut Desk, conference: u32)
    ensures attends { Attends beside desk.old.callers desk.new.callers }
{
    let Some(meeting) = desk.meetings.get_mut(&conference) else {
        return;
    };
    if meeting.is_broken {
        return;
    }
    meeting.is_broken = true;
    tell_happened(desk, conference, Happened::Broken);
}

/// What happened beside the events of a conference is told to who watches it, behind all events before it: to who lacks
/// some of them, once it doesn't.
pub fn tell_happened(desk: &mut Desk, conference: u32, what: Happened)
    ensures attends { Attends beside desk.old.callers desk.new.callers }
{
    let is_lacked = desk.callers.are_lacking(conference);
    let Some(meeting) = desk.meetings.get_mut(&conference) else {
        return;
    };
    if tell_beside(desk.alloc, &mut desk.callers, meeting, what, is_lacked).is_err() {
        desk.callers.close_watching(conference);
    }
    desk.has_told = true;
}

/// The same, where somebody lacks some of its events, or nobody does.
fn tell_beside(
    alloc: Global,
    callers: &mut Callers,
    meeting: &mut Meeting,
    what: Happened,
    is_lacked: bool,
) -> Result<(), AllocError>
    ensures attends { Attends beside callers.old callers.new }
{
    let next = meeting.known.next();
    // No journal is so long.
    if next == u64::MAX {
        return Ok(());
    }
    let conference = meeting.opening.conference();
    let told = Told::of_server(alloc, ServerTold { conference, what }, next)?;
    callers.tell_all(&told);
    if !is_lacked {
        meeting.untold.clear();
        return Ok(());
    }
    meeting.untold.push((next, told))?;
    Ok(())
}
