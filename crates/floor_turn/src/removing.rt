//! Members that are shown out.

ghost use Rattle.std.specs.Prelude.{◌≡◌, ◌&&◌, ℕ, None, OnErr, OnOk, Some, false, nat_eq, true};
ghost use Rattle.floor_hub.specs.Connections.{connection_at};
ghost use Rattle.floor_meetings.specs.Meetings.{member_at};
ghost use Rattle.floor_meetings.specs.Members.{slot_of};
ghost use Rattle.floor_meetings.specs.declared.members.Member.{Member as Known};
ghost use Rattle.floor_sockets.specs.Sockets.{life_at};
ghost use Rattle.floor_connections.specs.Asked.{is_ending};
ghost use Rattle.floor_connections.specs.Conferences.{SameUsers, conference_at, is_removed};
ghost use Rattle.floor_connections.specs.declared.conferences.Conference.{Conference as There};
ghost use Rattle.floor_connections.specs.Steps.{Steps};
ghost use Rattle.floor_turn.specs.Moves.{Moves, nothing_taken};

use crate::meeting::{part, touched_by, who_at};
use crate::server::Server;
use floor_connections::{Connections, Departure, Entry, Who};
use floor_meetings::ConnNo;
use std::alloc::AllocError;

impl Server {
    /// The member with this number leaves, whether it is away or has a socket, which is shut at once. No other leaves.
    pub fn remove(&mut self, number: ConnNo, now: u64)
        ensures gone { connection_at self.new.meetings.hub.hub.connections number ≡ None }
        ensures shut { (socket : ℕ) → slot_of self.old.meetings.members number ≡ Some socket
            → (member_at self.new.meetings socket ≡ None)
            × (is_ending (life_at self.new.connections.sockets socket) ≡ true) }
        ensures others { (k : ℕ) → (slot_of self.old.meetings.members number ≡ Some k → ⊥)
            → member_at self.new.meetings k ≡ member_at self.old.meetings k }
        ensures moves { Moves nothing_taken self.old.meetings self.new.meetings }
        ensures steps { Steps self.old.connections.sockets self.new.connections.sockets }
    {
        self.connections.pass(now);
        self.touched = touched_by(&self.meetings, number, self.touched);
        match self.meetings.slot_of(number) {
            Some(socket) => self.remove_at(socket),
            None => self.remove_away(number),
        }
    }

    /// The member at a socket leaves, and its socket is shut at once.
    fn remove_at(&mut self, socket: usize)
        ensures gone { (m : Known) → member_at self.old.meetings socket ≡ Some m
            → connection_at self.new.meetings.hub.hub.connections m.number ≡ None }
        ensures free { member_at self.new.meetings socket ≡ None }
        ensures shut { is_ending (life_at self.new.connections.sockets socket) ≡ true }
        ensures others { (k : ℕ) → nat_eq socket k ≡ false
            → member_at self.new.meetings k ≡ member_at self.old.meetings k }
        ensures moves { Moves nothing_taken self.old.meetings self.new.meetings }
        ensures steps { Steps self.old.connections.sockets self.new.connections.sockets }
    {
        let who = who_at(&self.meetings, socket);
        let _stays = part(&mut self.meetings, socket, false, self.connections.millis());
        tell_removed(&mut self.connections, socket, who);
        free_gone(&mut self.connections, socket);
        self.connections.fail(socket);
    }

    /// A member that is away leaves.
    fn remove_away(&mut self, number: ConnNo)
        ensures gone { slot_of self.old.meetings.members number ≡ None
            → connection_at self.new.meetings.hub.hub.connections number ≡ None }
        ensures members { self.new.meetings.members ≡ self.old.meetings.members }
        ensures moves { Moves nothing_taken self.old.meetings self.new.meetings }
        ensures steps { Steps self.old.connections.sockets self.new.connections.sockets }
    {
        let _left = self.meetings.leave_away(number, self.connections.millis());
        let who = self.connections.forget_away(number);
        tell_gone(&mut self.connections, who);
    }

    /// Whoever comes as this user of a conference isn't let in, from now on: it is refused by `Removed`. Where memory is
    /// refused, and where there is no such conference, nothing has changed.
    pub fn ban(&mut self, conference: u32, user: u16) -> Result<(), AllocError>
        ensures took { OnOk result ((c : There)
            → conference_at self.old.connections.conferences conference ≡ Some c
            → is_removed self.new.connections.conferences conference user ≡ true) }
        ensures others { (c u : ℕ) → (nat_eq conference c && nat_eq user u) ≡ false
            → is_removed self.new.connections.conferences c u
            ≡ is_removed self.old.connections.conferences c u }
        ensures left { OnErr result (SameUsers self.old.connections.conferences
            self.new.connections.conferences) }
        ensures meetings { self.new.meetings ≡ self.old.meetings }
        ensures table { self.new.connections.table ≡ self.old.connections.table }
        ensures sockets { self.new.connections.sockets ≡ self.old.connections.sockets }
    {
        self.connections.conferences.ban(conference, user)
    }

    /// Whoever comes as this user of a conference is let in again.
    pub fn admit(&mut self, conference: u32, user: u16)
        ensures took { is_removed self.new.connections.conferences conference user ≡ false }
        ensures others { (c u : ℕ) → (nat_eq conference c && nat_eq user u) ≡ false
            → is_removed self.new.connections.conferences c u
            ≡ is_removed self.old.connections.conferences c u }
        ensures meetings { self.new.meetings ≡ self.old.meetings }
        ensures table { self.new.connections.table ≡ self.old.connections.table }
        ensures sockets { self.new.connections.sockets ≡ self.old.connections.sockets }
    {
        self.connections.conferences.admit(conference, user);
    }

    /// Whether whoever comes as this user of a conference isn't let in.
    pub fn is_banned(&self, conference: u32, user: u16) -> bool
        ensures value { result ≡ is_removed self.now.connections.conferences conference user }
    {
        self.connections.conferences.is_banned(conference, user)
    }
}

/// The number of a socket that was shut while its conference was held is free.
fn free_gone(connections: &mut Connections, socket: usize)
    ensures steps { Steps connections.old.sockets connections.new.sockets }
{
    if connections.table.is_gone(socket) {
        connections.shut(socket);
    }
}

/// The log is told that a member has left by a socket, since it was shown out.
fn tell_removed(connections: &mut Connections, socket: usize, who: Option<Who>)
    ensures sockets { connections.new.sockets ≡ connections.old.sockets }
{
    match (connections.table.peer(socket), who) {
        (Some(peer), Some(who)) => connections.tell(Entry::Left {
            peer,
            who,
            departure: Departure::Removed,
        }),
        _ => {}
    }
}

/// The same of one that was away.
fn tell_gone(connections: &mut Connections, who: Option<Who>)
    ensures sockets { connections.new.sockets ≡ connections.old.sockets }
{
    match who {
        Some(who) => connections.tell(Entry::Gone(who)),
        None => {}
    }
}
