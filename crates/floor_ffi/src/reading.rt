//! What is read of a conference.

ghost use Rattle.std.specs.Prelude.{◌≡◌, ◌≤◌, ◌<◌, ◌+◌, length, take, drop, OnErr, IfOk};
ghost use Rattle.floor_room.specs.Text.{lines};
ghost use Rattle.floor_ffi.specs.steps.Lines.{IsLine};
ghost use Rattle.floor_ffi.specs.declared.outcome.Outcome.{Outcome};
ghost use Rattle.floor_ffi.specs.Gives.{IsPiece, JournalGives, StatusGives};
ghost use Rattle.floor_ffi.specs.Numbers.{number_of, of_phase};

use crate::answers::{FloorLines, FloorState};
use crate::outcome::Outcome;
use floor_hub::{Event, Hub, HubRefusal};
use floor_room::{Phase, add_lines};
use std::alloc::{AllocError, Global};

/// How a conference stands.
pub(crate) fn status(hub: &mut Hub, conference: u32) -> FloorState
    ensures gives { StatusGives hub.old conference hub.new result.result result.members
        result.ongoing result.events result.phase }
{
    match hub.status(conference) {
        Ok(status) => FloorState {
            result: Outcome::Done.number(),
            members: status.members,
            ongoing: status.ongoing,
            events: status.events,
            phase: number_of_phase(status.phase),
        },
        Err(refusal) => FloorState {
            result: Outcome::Refused(refusal).number(),
            members: 0,
            ongoing: 0,
            events: 0,
            phase: 0,
        },
    }
}

/// The number of a phase.
fn number_of_phase(phase: Phase) -> u32
    ensures value { result ≡ of_phase phase }
{
    match phase {
        Phase::Running => 0,
        Phase::Ended => 1,
        Phase::Broken => 2,
    }
}

/// Writes the lines of a conference's journal behind those of the first `done` events, as many as there
/// is room for.
pub(crate) fn journal(
    hub: &mut Hub,
    alloc: Global,
    conference: u32,
    done: usize,
    room: &mut [u8],
) -> FloorLines
    ensures gives { JournalGives hub.old conference done hub.new result.result result.events
        result.len (length room.old) room.new }
{
    match hub.journal(conference) {
        Ok(events) => put_lines(alloc, events, done, room),
        Err(refusal) => put(Outcome::Refused(refusal), 0, 0),
    }
}

/// So many events, whose lines have so many bytes.
fn put(outcome: Outcome, events: usize, len: usize) -> FloorLines
    ensures value { result ≡ record { result = number_of outcome; events = events; len = len } }
{
    FloorLines {
        result: outcome.number(),
        events,
        len,
    }
}

/// Puts the lines behind those of the first `done` events, as many as there is room for.
fn put_lines(alloc: Global, events: &[Event], done: usize, room: &mut [u8]) -> FloorLines
    ensures value { (outcome : Outcome) × (result.result ≡ number_of outcome) × IsPiece
        events.now done result.events result.len (length room.old) room.new outcome }
{
    if events.len() <= done {
        return put(Outcome::Nothing, 0, 0);
    }
    let mut len = 0;
    for added in 0..events.len() - done {
        let (_, rest) = room.split_at_mut(len);
        match put_line(alloc, events, done + added, rest) {
            Ok(Line::Put(more)) => len += more,
            Ok(Line::Longer(first)) => {
                if added == 0 {
                    return put(Outcome::TooShort, 0, first);
                }
                return put(Outcome::Done, added, len);
            }
            Err(_) => return put(Outcome::Refused(HubRefusal::Memory), 0, 0),
        }
    }
    put(Outcome::Done, events.len() - done, len)
}

/// What putting one line comes to.
#[derive(Clone, Copy)]
enum Line {
    /// It was put, and has so many bytes.
    Put(usize),
    /// It has so many bytes, more than there is room for.
    Longer(usize),
}

/// Puts the line of the event behind the first `done`, if there is room for it.
fn put_line(
    alloc: Global,
    events: &[Event],
    done: usize,
    room: &mut [u8],
) -> Result<Line, AllocError>
    requires { done < length events.now }
    ensures value { IfOk result (IsLine (lines (done + 1) (take 1 (drop done events.now)))
        (length room.old) room.new) }
{
    let mut text = String::new(alloc);
    add_lines(alloc, &mut text, &events[..done + 1], done)?;
    let line = text.as_str().as_bytes();
    if room.len() < line.len() {
        return Ok(Line::Longer(line.len()));
    }
    let (front, _) = room.split_at_mut(line.len());
    front.copy_from_slice(line);
    Ok(Line::Put(line.len()))
}
