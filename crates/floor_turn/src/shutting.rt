//! Sockets that are shut.

ghost use Rattle.std.specs.Prelude.{◌≡◌, None, false, true};
ghost use Rattle.floor_meetings.specs.Meetings.{member_at};
ghost use Rattle.floor_sockets.specs.Sockets.{life_at};
ghost use Rattle.floor_connections.specs.Asked.{shuts};
ghost use Rattle.floor_connections.specs.Steps.{Steps};
ghost use Rattle.floor_turn.specs.Held.{MovesFree, is_held_for};
ghost use Rattle.floor_turn.specs.Moves.{Moves, nothing_taken};

use crate::meeting::{departure_of, part, touched_at, who_at};
use crate::server::{Course, Server};
use floor_connections::{Connections, Entry, Peer, Refusal, is_shutting};
use floor_doors::DoorRefusal;
use floor_meetings::Meetings;

impl Server {
    /// A socket was shut, or a listener isn't listened on any more, as was asked: its number is free. A member leaves, or
    /// stays for its grace; one of a conference that is held does so once it isn't, and its number is free then.
    pub fn shut(&mut self, socket: usize)
        ensures not_asked { shuts (life_at self.old.connections.sockets socket) ≡ false
            → self.new.meetings ≡ self.old.meetings }
        ensures held { is_held_for self.old.connections.conferences
            (member_at self.old.meetings socket) ≡ true
            → self.new.meetings ≡ self.old.meetings }
        ensures spares { MovesFree self.old.connections.conferences
            self.old.meetings self.new.meetings }
        ensures moves { Moves nothing_taken self.old.meetings self.new.meetings }
        ensures steps { Steps self.old.connections.sockets self.new.connections.sockets }
    {
        if !is_shutting(&self.connections.sockets, socket) {
            return;
        }
        if self.is_held_at(socket) {
            self.connections.table.go(socket);
            return;
        }
        self.see_off(socket);
        self.connections.shut(socket);
    }

    /// Whoever is at a socket that was shut is no more: a member leaves, or stays for its grace.
    pub(crate) fn see_off(&mut self, socket: usize)
        ensures spares { is_held_for self.old.connections.conferences
            (member_at self.old.meetings socket) ≡ false
            → MovesFree self.old.connections.conferences self.old.meetings self.new.meetings }
        ensures moves { Moves nothing_taken self.old.meetings self.new.meetings }
        ensures conferences { self.new.connections.conferences ≡ self.old.connections.conferences }
        ensures sockets { self.new.connections.sockets ≡ self.old.connections.sockets }
    {
        match self.connections.table.peer(socket) {
            None => self.end_listener(socket),
            Some(peer) => {
                if self.connections.table.is_at_door(socket) {
                    self.end_newcomer(peer);
                } else {
                    self.part(socket, peer);
                }
            }
        }
    }

    /// A listener isn't listened on any more.
    fn end_listener(&mut self, socket: usize)
        ensures meetings { self.new.meetings ≡ self.old.meetings }
        ensures conferences { self.new.connections.conferences ≡ self.old.connections.conferences }
        ensures sockets { self.new.connections.sockets ≡ self.old.connections.sockets }
    {
        match self.connections.table.place_at(socket) {
            Some(place) => self.connections.tell(Entry::Ended(place)),
            None => {}
        }
    }

    /// Somebody at a door has said nothing in time.
    fn end_newcomer(&mut self, peer: Peer)
        ensures meetings { self.new.meetings ≡ self.old.meetings }
        ensures conferences { self.new.connections.conferences ≡ self.old.connections.conferences }
        ensures sockets { self.new.connections.sockets ≡ self.old.connections.sockets }
    {
        if self.course == Course::Closing {
            return;
        }
        let refusal = Refusal::AtDoor(DoorRefusal::NoHeader);
        self.connections.tell(Entry::Refused { peer, refusal });
    }

    /// The member at a socket leaves, or stays, away.
    fn part(&mut self, socket: usize, peer: Peer)
        ensures free { member_at self.new.meetings socket ≡ None }
        ensures spares { is_held_for self.old.connections.conferences
            (member_at self.old.meetings socket) ≡ false
            → MovesFree self.old.connections.conferences self.old.meetings self.new.meetings }
        ensures moves { Moves nothing_taken self.old.meetings self.new.meetings }
        ensures conferences { self.new.connections.conferences ≡ self.old.connections.conferences }
        ensures sockets { self.new.connections.sockets ≡ self.old.connections.sockets }
    {
        self.touched = touched_at(&self.meetings, socket, self.touched);
        let is_stopping = self.course == Course::Closing;
        let end = self.connections.table.end_of(socket);
        let departure = departure_of(&self.meetings, socket, end, is_stopping);
        let who = who_at(&self.meetings, socket);
        let number = self.meetings.get(socket).map_or(0, |member| member.number);
        let is_lost = departure.is_lost(self.is_for_all);
        let stays = part(
            &mut self.meetings,
            socket,
            is_lost,
            self.connections.millis(),
        );
        match who {
            Some(who) if stays => {
                self.connections.note_away(number, who);
                self.connections.tell(Entry::Away {
                    peer,
                    who,
                    departure,
                });
            }
            Some(who) => self.connections.tell(Entry::Left {
                peer,
                who,
                departure,
            }),
            None => {}
        }
    }
}

/// Nobody is listened for or read any more, and each socket is to be shut.
pub(crate) fn end_all(connections: &mut Connections, meetings: &Meetings)
    ensures steps { Steps connections.old.sockets connections.new.sockets }
{
    for socket in 0..connections.table.len() {
        let has_bytes = !meetings.lent(socket).is_empty();
        connections.end(socket, has_bytes);
    }
}
