//! What the turn asks of the meetings.

ghost use Rattle.std.specs.Prelude.{◌≡◌, ◌≤◌, ◌<◌, ℕ, List, None, Option, Some, false, nat_eq, true};
ghost use Rattle.floor_hub.specs.Connections.{connection_at};
ghost use Rattle.floor_room.specs.Room.{Room};
ghost use Rattle.floor_hub.specs.Hub.{room_at};
ghost use Rattle.floor_hub.specs.Members.{AreMembers};
ghost use Rattle.floor_hub.specs.declared.attached.Live.{Live as Listed};
ghost use Rattle.floor_meetings.specs.Joined.{is_of, member_with, of_user};
ghost use Rattle.floor_meetings.specs.Meetings.{member_at};
ghost use Rattle.floor_meetings.specs.declared.members.Member.{Member as Known};
ghost use Rattle.floor_turn.specs.Entering.{IsFullFor, MayTry};
ghost use Rattle.floor_connections.specs.declared.conferences.Conferences.{Conferences as Held};
ghost use Rattle.floor_turn.specs.Held.{MovesFree, is_held_for};
ghost use Rattle.floor_turn.specs.Moves.{Moves, nothing_taken};
ghost use Rattle.floor_turn.specs.Touched.{touched_of};

use floor_connections::{Departure, Who};
use floor_hub::Live;
use floor_meetings::{ConnNo, Meetings};
use floor_room::Phase;

/// The member at a socket has none any more. Says whether it stays: not where its connection wasn't lost, or its user is
/// in the conference by another one.
pub(crate) fn part(meetings: &mut Meetings, slot: usize, is_lost: bool, now: u64) -> bool
    ensures free { member_at meetings.new slot ≡ None }
    ensures gone { (m : Known) → member_at meetings.old slot ≡ Some m → result ≡ false
        → connection_at meetings.new.hub.hub.connections m.number ≡ None }
    ensures others { (k : ℕ) → nat_eq slot k ≡ false
        → member_at meetings.new k ≡ member_at meetings.old k }
    ensures stays { is_lost ≡ false → result ≡ false }
    ensures spares { (cs : Held) → is_held_for cs (member_at meetings.old slot) ≡ false
        → MovesFree cs meetings.old meetings.new }
    ensures moves { Moves nothing_taken meetings.old meetings.new }
{
    let Some(member) = meetings.get(slot) else {
        return false;
    };
    if is_lost && sockets_of(meetings, member.conference, member.user) <= 1 {
        match meetings.left(slot, now) {
            Ok(stays) => return stays,
            Err(_) => return false,
        }
    }
    let _left = meetings.leave(slot, now);
    false
}

/// Why the socket of a member is shut, whose reading ended so and whose server stops or doesn't.
pub(crate) fn departure_of(
    meetings: &Meetings,
    slot: usize,
    end: Option<Departure>,
    is_stopping: bool,
) -> Departure {
    let Some(member) = meetings.get(slot) else {
        return Departure::Reset;
    };
    match phase_of(meetings, member.conference) {
        Some(Phase::Ended) => return Departure::Closed,
        Some(Phase::Broken) => return Departure::BrokenOff,
        Some(Phase::Running) | None => {}
    }
    if meetings.hub().is_cut(member.number) {
        return Departure::Slow;
    }
    match end {
        Some(departure) => departure,
        None if is_stopping => Departure::Stopped,
        None => Departure::Reset,
    }
}

/// How the reading of a member's socket ended whose stream is over.
pub(crate) fn end_of_stream(meetings: &Meetings, slot: usize) -> Departure {
    let held = match meetings.get(slot) {
        Some(member) => meetings.hub().held_len(member.number),
        None => 0,
    };
    if held == 0 {
        Departure::EndOfStream
    } else {
        Departure::InsideMessage
    }
}

/// How a conference stands, where there is one.
pub(crate) fn phase_of(meetings: &Meetings, conference: u32) -> Option<Phase> {
    match meetings.hub().status(conference) {
        Ok(status) => Some(status.phase),
        Err(_) => None,
    }
}

/// The conference of the member at a socket, where it is broken off.
pub(crate) fn broken_at(meetings: &Meetings, slot: usize) -> Option<u32> {
    let member = meetings.get(slot)?;
    match phase_of(meetings, member.conference) {
        Some(Phase::Broken) => Some(member.conference),
        Some(Phase::Running | Phase::Ended) | None => None,
    }
}

/// Who the member at a socket is.
pub(crate) fn who_at(meetings: &Meetings, slot: usize) -> Option<Who> {
    let member = meetings.get(slot)?;
    let place = meetings.hub().place(member.number)?;
    Some(Who {
        conference: member.conference,
        user: member.user,
        n: place.n,
    })
}

/// Whether a user has as many sockets in a conference as its configuration lets one user have.
pub(crate) fn is_full_for(meetings: &Meetings, conference: u32, user: u16) -> bool
    ensures full { result ≡ true → IsFullFor conference user meetings.now }
    ensures may { result ≡ false → MayTry conference user meetings.now }
{
    match meetings.hub().config(conference) {
        Ok(config) => are_all(config.connections(), sockets_of(meetings, conference, user)),
        Err(_) => false,
    }
}

/// Whether there are as many as there may be.
fn are_all(most: u16, count: usize) -> bool
    ensures full { result ≡ true → most ≤ count }
    ensures free { result ≡ false → count < most }
{
    usize::from(most) <= count
}

/// How many sockets of a user are in a conference.
fn sockets_of(meetings: &Meetings, conference: u32, user: u16) -> usize
    ensures found { (r : Room) → room_at meetings.now.hub.hub conference ≡ Some r
        → (live : List Listed) × AreMembers meetings.now.hub.hub conference live
        × (result ≡ of_user meetings.now.members user live) }
{
    match meetings.hub().members(conference) {
        Ok(live) => count_of(meetings, live, user),
        Err(_) => 0,
    }
}

/// How many of these live connections are in slots and of this user.
fn count_of(meetings: &Meetings, live: &[Live], user: u16) -> usize
    ensures value { result ≡ of_user meetings.now.members user live.now }
{
    live.iter()
        .filter(|one| is_of(meetings, one.number, user))
        .count()
}

/// Whether the member with this number is in a slot, and of this user.
fn is_of(meetings: &Meetings, number: ConnNo, user: u16) -> bool
    ensures value { result ≡ is_of user (member_with meetings.now.members number) }
{
    match meetings.slot_of(number) {
        Some(slot) => match meetings.get(slot) {
            Some(member) => member.user == user,
            None => false,
        },
        None => false,
    }
}

/// The conference of the member in a slot; the other where there is none.
pub(crate) fn touched_at(meetings: &Meetings, slot: usize, other: Option<u32>) -> Option<u32>
    ensures value { result ≡ touched_of (member_at meetings.now slot) other }
{
    match meetings.get(slot) {
        Some(member) => Some(member.conference),
        None => other,
    }
}

/// That of the member with this number; the other where there is none.
pub(crate) fn touched_by(meetings: &Meetings, number: ConnNo, other: Option<u32>) -> Option<u32> {
    match meetings.hub().place(number) {
        Some(place) => Some(place.conference),
        None => other,
    }
}
