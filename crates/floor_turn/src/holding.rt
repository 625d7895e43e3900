//! Conferences that are held, and how many of their events are kept.

ghost use Rattle.std.specs.Prelude.{◌≡◌, ◌-◌, Err, IfErr, IfSome, None, OnErr, OnOk, Some, drop, false, nat_eq, true, ℕ};
ghost use Rattle.std.specs.Result.{MatchResult};
ghost use Rattle.floor_room.specs.Room.{Room};
ghost use Rattle.floor_hub.specs.Connections.{connection_at};
ghost use Rattle.floor_hub.specs.Hub.{is_forgotten, room_at};
ghost use Rattle.floor_hub.specs.Rooms.{KeepsIn, SameHub, all_so_far, all_to_come, forgotten_or_none, so_many};
ghost use Rattle.floor_hub.specs.declared.connection.Connection.{Connection as Live};
ghost use Rattle.floor_meetings.specs.Meetings.{member_at};
ghost use Rattle.floor_meetings.specs.declared.meetings.Meetings.{Meetings as Parts};
ghost use Rattle.floor_connections.specs.Conferences.{conference_at, is_held};
ghost use Rattle.floor_connections.specs.declared.conferences.Conference.{Conference as There};
ghost use Rattle.floor_connections.specs.Steps.{Steps};
ghost use Rattle.floor_turn.specs.Held.{MovesFree, is_held_for, is_held_listener, is_held_place};
ghost use Rattle.floor_connections.specs.Table.{listener_of, socket_at};
ghost use Rattle.floor_turn.specs.Moves.{Moves, nothing_taken};

use crate::server::Server;
use floor_connections::{Connections, Place};
use floor_loop::Event;
use floor_meetings::{ConnNo, HubRefusal, Meetings};

/// How many members of a conference are live at most (RFC 8855 has no bound; the machine's).
const MAX_LIVE: usize = 64;

// What stands of a conference is written down somewhere before anybody learns of it: `begin_keeping` once, and then again and
// again `hold`, `events_from` for what is to be written, and `let_go` once it is. `end_keeping` where it can't be.
impl Server {
    /// From now on what an event of a conference tells is lent once the event is kept; those so far are. Refused by
    /// `NoConference` and `Forgotten`.
    pub fn begin_keeping(&mut self, conference: u32) -> Result<(), HubRefusal>
        ensures kept { OnOk result (KeepsIn all_so_far conference
            self.old.meetings.hub.hub self.new.meetings.hub.hub) }
        ensures refused { IfErr result (λ r. (room_at self.old.meetings.hub.hub conference ≡ None)
            × (r ≡ forgotten_or_none (is_forgotten self.old.meetings.hub.hub conference))) }
        ensures left { OnErr result (SameHub self.old.meetings.hub.hub self.new.meetings.hub.hub) }
        ensures members { self.new.meetings.members ≡ self.old.meetings.members }
        ensures moves { Moves nothing_taken self.old.meetings self.new.meetings }
        ensures connections { self.new.connections ≡ self.old.connections }
    {
        self.meetings.begin_keeping(conference)
    }

    /// What an event of a conference tells is lent at once again: its events are kept no more. Refused by `NoConference` and
    /// `Forgotten`.
    pub fn end_keeping(&mut self, conference: u32) -> Result<(), HubRefusal>
        ensures kept { OnOk result (KeepsIn all_to_come conference
            self.old.meetings.hub.hub self.new.meetings.hub.hub) }
        ensures refused { IfErr result (λ r. (room_at self.old.meetings.hub.hub conference ≡ None)
            × (r ≡ forgotten_or_none (is_forgotten self.old.meetings.hub.hub conference))) }
        ensures left { OnErr result (SameHub self.old.meetings.hub.hub self.new.meetings.hub.hub) }
        ensures members { self.new.meetings.members ≡ self.old.meetings.members }
        ensures moves { Moves nothing_taken self.old.meetings self.new.meetings }
        ensures connections { self.new.connections ≡ self.old.connections }
    {
        self.meetings.end_keeping(conference)
    }

    /// No event of a conference is taken any more, until `let_go`: nobody of it is read or served, nobody is accepted at its
    /// ports, who is named at a door for it waits, and nobody of it leaves, whose socket was shut or whose time is over. What
    /// is lent is written, and acknowledged. To be called where no deed waits for its answer. What the caller itself asks of
    /// the conference is done as ever.
    pub fn hold(&mut self, conference: u32)
        ensures took { (c : There)
            → conference_at self.old.connections.conferences conference ≡ Some c
            → is_held self.new.connections.conferences conference ≡ true }
        ensures others { (c : ℕ) → nat_eq conference c ≡ false
            → is_held self.new.connections.conferences c
            ≡ is_held self.old.connections.conferences c }
        ensures meetings { self.new.meetings ≡ self.old.meetings }
        ensures table { self.new.connections.table ≡ self.old.connections.table }
        ensures sockets { self.new.connections.sockets ≡ self.old.connections.sockets }
    {
        self.connections.conferences.hold(conference);
    }

    /// So many events of a conference are kept by now, if it is one that is kept, and it isn't held any more: what they
    /// told is lent, and then whoever waits is read, served, accepted and joins, and whose socket was shut meanwhile leaves.
    /// Refused by `NoConference` and `Forgotten`: then nothing is kept.
    pub fn let_go(&mut self, conference: u32, events: u32) -> Result<(), HubRefusal>
        ensures kept { OnOk result ((between : Parts)
            × KeepsIn (so_many events) conference self.old.meetings.hub.hub between.hub.hub
            × Moves nothing_taken between self.new.meetings) }
        ensures refused { IfErr result (λ r. (room_at self.old.meetings.hub.hub conference ≡ None)
            × (r ≡ forgotten_or_none (is_forgotten self.old.meetings.hub.hub conference))) }
        ensures free { is_held self.new.connections.conferences conference ≡ false }
        ensures moves { Moves nothing_taken self.old.meetings self.new.meetings }
        ensures steps { Steps self.old.connections.sockets self.new.connections.sockets }
    {
        let kept = self.meetings.keep(conference, events);
        self.connections.resume_listeners(conference);
        resume_members(&mut self.connections, &self.meetings, conference);
        self.connections.conferences.let_go(conference);
        self.part_gone(conference);
        kept
    }

    /// Whether no event of a conference is taken.
    pub fn is_held(&self, conference: u32) -> bool
        ensures value { result ≡ is_held self.now.connections.conferences conference }
    {
        self.connections.conferences.is_held(conference)
    }

    /// The events of a conference from this place on, of which the first is 1. Refused by `NoConference` and `Forgotten`.
    pub fn events_from(&self, conference: u32, place: u32) -> Result<&[Event], HubRefusal>
        ensures no_conference { room_at self.now.meetings.hub.hub conference ≡ None
            → is_forgotten self.now.meetings.hub.hub conference ≡ false
            → result ≡ Err HubRefusal.NoConference }
        ensures forgotten { room_at self.now.meetings.hub.hub conference ≡ None
            → is_forgotten self.now.meetings.hub.hub conference ≡ true
            → result ≡ Err HubRefusal.Forgotten }
        ensures found { (r : Room) → room_at self.now.meetings.hub.hub conference ≡ Some r
            → MatchResult result (λ events. events.now ≡ drop (place - 1) r.ledger.journal) (λ _. ⊥) }
    {
        match self.meetings.hub().journal(conference) {
            Ok(events) => Ok(behind_place(events, place)),
            Err(refusal) => Err(refusal),
        }
    }

    /// The members of a conference whose sockets were shut while it was held are to leave, or to stay, away: once whoever is
    /// ready was seen to, since what a leave tells isn't kept yet. Where memory is refused for that they leave now.
    fn part_gone(&mut self, conference: u32)
        ensures moves { Moves nothing_taken self.old.meetings self.new.meetings }
        ensures conferences { self.new.connections.conferences ≡ self.old.connections.conferences }
        ensures steps { Steps self.old.connections.sockets self.new.connections.sockets }
    {
        match first_gone(&self.connections, &self.meetings, conference) {
            Some(_) => {}
            None => return,
        }
        match self.connections.part_later(conference) {
            Ok(()) => {}
            Err(_) => self.see_off_all(conference),
        }
    }

    /// All of them leave, or stay, away.
    fn see_off_all(&mut self, conference: u32)
        ensures moves { Moves nothing_taken self.old.meetings self.new.meetings }
        ensures conferences { self.new.connections.conferences ≡ self.old.connections.conferences }
        ensures steps { Steps self.old.connections.sockets self.new.connections.sockets }
    {
        for _member in 0..MAX_LIVE {
            match first_gone(&self.connections, &self.meetings, conference) {
                Some(socket) => self.see_off_gone(socket),
                None => return,
            }
        }
    }

    /// The first of the next such conference leaves, or stays, away. Says whether there was one.
    pub(crate) fn see_to_parting(&mut self) -> bool
        ensures spares { MovesFree self.old.connections.conferences
            self.old.meetings self.new.meetings }
        ensures none { result ≡ false → (self.new.meetings ≡ self.old.meetings)
            × (self.new.connections.conferences ≡ self.old.connections.conferences) }
        ensures moves { Moves nothing_taken self.old.meetings self.new.meetings }
        ensures steps { Steps self.old.connections.sockets self.new.connections.sockets }
    {
        let Some(conference) = self.connections.next_parting() else {
            return false;
        };
        let Some(socket) = first_gone(&self.connections, &self.meetings, conference) else {
            return true;
        };
        // One that is held again is parted once it is let go.
        if self.is_held_at(socket) {
            return true;
        }
        // It has the place again that it had, so no memory is taken.
        let _later = self.connections.part_later(conference);
        self.see_off_gone(socket);
        true
    }

    /// A member whose socket was shut leaves, or stays, away, and its number is free.
    fn see_off_gone(&mut self, socket: usize)
        ensures spares { is_held_for self.old.connections.conferences
            (member_at self.old.meetings socket) ≡ false
            → MovesFree self.old.connections.conferences self.old.meetings self.new.meetings }
        ensures moves { Moves nothing_taken self.old.meetings self.new.meetings }
        ensures conferences { self.new.connections.conferences ≡ self.old.connections.conferences }
        ensures steps { Steps self.old.connections.sockets self.new.connections.sockets }
    {
        self.see_off(socket);
        self.connections.shut(socket);
    }

    /// Whether the member at a socket is of a conference that is held.
    pub(crate) fn is_held_at(&self, socket: usize) -> bool
        ensures value { result ≡ is_held_for self.now.connections.conferences
            (member_at self.now.meetings socket) }
    {
        match self.meetings.get(socket) {
            Some(member) => self.connections.conferences.is_held(member.conference),
            None => false,
        }
    }
}

/// Whether the connection with this number is of a conference that is held.
pub(crate) fn is_held_by(connections: &Connections, meetings: &Meetings, number: ConnNo) -> bool
    ensures free { result ≡ false → (x : Live)
        → connection_at meetings.now.hub.hub.connections number ≡ Some x
        → is_held connections.now.conferences x.conference ≡ false }
{
    match meetings.hub().place(number) {
        Some(place) => connections.conferences.is_held(place.conference),
        None => false,
    }
}

/// Whether a listener is at a port of a conference that is held.
pub(crate) fn is_held_listener(connections: &Connections, listener: usize) -> bool
    ensures value { result ≡ is_held_listener connections.now.conferences
        (listener_of (socket_at connections.now.table listener)) }
{
    match connections.table.listener(listener) {
        Some(known) => is_held_place(connections, known.place),
        None => false,
    }
}

/// Whether a place is a port of a conference that is held.
fn is_held_place(connections: &Connections, place: Place) -> bool
    ensures value { result ≡ is_held_place connections.now.conferences place }
{
    match place {
        Place::Port { conference, .. } => connections.conferences.is_held(conference),
        Place::Door { .. } | Place::Health { .. } | Place::Control | Place::Observe => false,
    }
}

/// The events from a place on.
fn behind_place(events: &[Event], place: u32) -> &[Event]
    ensures value { result.now ≡ drop (place - 1) events.now }
{
    let at = usize::try_from(place.saturating_sub(1)).unwrap_or(usize::MAX);
    events.get(at..).unwrap_or(&[])
}

/// The sockets of the members of a conference are read and served again.
fn resume_members(connections: &mut Connections, meetings: &Meetings, conference: u32)
    ensures steps { Steps connections.old.sockets connections.new.sockets }
{
    let Ok(live) = meetings.hub().members(conference) else {
        return;
    };
    for one in live {
        resume_member(connections, meetings, one.number);
    }
}

/// So is that of the member with this number, where it has one.
fn resume_member(connections: &mut Connections, meetings: &Meetings, number: ConnNo)
    ensures steps { Steps connections.old.sockets connections.new.sockets }
{
    match meetings.slot_of(number) {
        Some(socket) => connections.resume(socket),
        None => {}
    }
}

/// The first member of a conference whose socket was shut.
fn first_gone(connections: &Connections, meetings: &Meetings, conference: u32) -> Option<usize> {
    let Ok(live) = meetings.hub().members(conference) else {
        return None;
    };
    for one in live {
        match meetings.slot_of(one.number) {
            Some(socket) if connections.table.is_gone(socket) => return Some(socket),
            _ => {}
        }
    }
    None
}
