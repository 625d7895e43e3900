//! Listeners, and who connects there.

ghost use Rattle.std.specs.Prelude.{◌≡◌, ◌≢◌, ◌⊎◌, ℕ, Err, IfErr, IfOk, None, OnOk, Some, false, max, true};
ghost use Rattle.floor_loop.specs.Laws.{IsNew};
ghost use Rattle.floor_meetings.specs.Meetings.{member_at};
ghost use Rattle.floor_meetings.specs.declared.members.Member.{Member as Known};
ghost use Rattle.floor_sockets.specs.Life.{none_came, worded};
ghost use Rattle.floor_sockets.specs.Sockets.{Changed, life_at};
ghost use Rattle.floor_proxy.specs.declared.header.NamedBy.{NamedBy as By};
ghost use Rattle.floor_connections.specs.Asked.{accepts};
ghost use Rattle.floor_connections.specs.Steps.{Steps};
ghost use Rattle.floor_connections.specs.Table.{client_of, is_at_door, listener_of, socket_at};
ghost use Rattle.floor_connections.specs.declared.place.Place.TheVariants.{Control, Door, Observe, Port};
ghost use Rattle.floor_connections.specs.declared.refusal.Refusal.TheVariants.{Memory, NotAsked};
ghost use Rattle.floor_connections.specs.declared.table.Listener.{Listener as Where};
ghost use Rattle.floor_connections.specs.declared.table.Stage.TheVariants as stages;
ghost use Rattle.floor_turn.specs.Entering.{HasJoined, IsDeclined, IsTurnedDown, MayJoin};
ghost use Rattle.floor_connections.specs.Conferences.{is_held};
ghost use Rattle.floor_turn.specs.Held.{MovesFree, is_held_place};
ghost use Rattle.floor_turn.specs.Moves.{Moves, nothing_taken};

use crate::meeting::{is_full_for, phase_of, who_at};
use crate::server::{Course, Server};
use floor_connections::{Connections, Entry, Fault, Peer, Place, Refusal};
use floor_meetings::{JoinRefusal, Meetings};
use floor_room::Phase;
use floor_sockets::Role;

impl Server {
    /// The poll told that somebody waits at a listener.
    pub fn knocked(&mut self, listener: usize)
        ensures sockets { (l : Where)
            → listener_of (socket_at self.old.connections.table listener) ≡ Some l
            → Changed (worded false) listener self.old.connections.sockets.deadlines
            self.old.connections.sockets self.new.connections.sockets }
        ensures none { listener_of (socket_at self.old.connections.table listener) ≡ None
            → self.new.connections ≡ self.old.connections }
        ensures meetings { self.new.meetings ≡ self.old.meetings }
        ensures steps { Steps self.old.connections.sockets self.new.connections.sockets }
    {
        match self.connections.table.listener(listener) {
            Some(_) => self.connections.sockets.readable(listener, false),
            None => {}
        }
    }

    /// The place of a listener is listened on, or can't be. Where a port of the start can't the server ends.
    pub fn listened(&mut self, listener: usize, is_listening: bool)
        ensures nobody { listener_of (socket_at self.old.connections.table listener) ≡ None
            → self.new ≡ self.old }
        ensures not_asked { (l : Where)
            → listener_of (socket_at self.old.connections.table listener) ≡ Some l
            → l.stage ≢ stages.Asked → self.new ≡ self.old }
        ensures meetings { self.new.meetings ≡ self.old.meetings }
        ensures steps { Steps self.old.connections.sockets self.new.connections.sockets }
    {
        let missed = self.connections.listened(listener, is_listening);
        match (missed, self.course) {
            (Some(place), Course::Starting) => {
                self.course = Course::Stopping;
                self.fault = Some(Fault::CannotListen(place));
            }
            _ => {}
        }
    }

    /// One was accepted at a listener, from this port of its own: gives its socket's number. At a user's port it is a
    /// member at once; at a door its header is awaited, five seconds at most; at the control clients' it is one. Who is
    /// refused has no number, and is to be closed.
    pub fn accepted(&mut self, listener: usize, port: u16, now: u64) -> Result<usize, Refusal>
        ensures joined { IfOk result (λ socket. (l : Where) (c u p : ℕ)
            → listener_of (socket_at self.old.connections.table listener) ≡ Some l
            → l.place ≡ Port c u p
            → (m : Known) × (member_at self.new.meetings socket ≡ Some m)
            × (m.conference ≡ c) × (m.user ≡ u)
            × IsNew self.new.meetings.hub m.number) }
        ensures at_door { IfOk result (λ socket. (l : Where) (named_by : By) (p : ℕ)
            → listener_of (socket_at self.old.connections.table listener) ≡ Some l
            → l.place ≡ Door named_by p
            → is_at_door (socket_at self.new.connections.table socket) ≡ true) }
        ensures not_asked { accepts (life_at self.old.connections.sockets listener) ≡ false
            → result ≡ Err NotAsked }
        ensures asked { IfErr result (λ why. why ≡ NotAsked
            → (listener_of (socket_at self.old.connections.table listener) ≡ None)
            ⊎ (accepts (life_at self.old.connections.sockets listener) ≡ false)) }
        ensures client { IfOk result (λ socket. (l : Where)
            → listener_of (socket_at self.old.connections.table listener) ≡ Some l
            → ((l.place ≡ Control) ⊎ (l.place ≡ Observe))
            → client_of (socket_at self.new.connections.table socket) ≡ Some l.place) }
        ensures refused { IfErr result (λ why. (l : Where) (c u p : ℕ)
            → accepts (life_at self.old.connections.sockets listener) ≡ true
            → listener_of (socket_at self.old.connections.table listener) ≡ Some l
            → l.place ≡ Port c u p
            → ((why ≡ Memory) × (self.new.meetings ≡ self.old.meetings)) ⊎ ((socket : ℕ)
            × IsDeclined socket c u self.old.connections.conferences
            self.old.meetings self.new.meetings why)) }
        ensures spares { (l : Where)
            → listener_of (socket_at self.old.connections.table listener) ≡ Some l
            → is_held_place self.old.connections.conferences l.place ≡ false
            → MovesFree self.old.connections.conferences self.old.meetings self.new.meetings }
        ensures moves { Moves nothing_taken self.old.meetings self.new.meetings }
        ensures steps { Steps self.old.connections.sockets self.new.connections.sockets }
    {
        self.connections.pass(now);
        let Some(known) = self.connections.accept(listener) else {
            return Err(Refusal::NotAsked);
        };
        let peer = Peer {
            place: known.place,
            port,
        };
        match self.come_in(peer, known.group) {
            Ok(socket) => Ok(socket),
            Err(refusal) => {
                self.connections.tell(Entry::Refused { peer, refusal });
                Err(refusal)
            }
        }
    }

    /// Nobody waits at a listener.
    pub fn nobody(&mut self, listener: usize)
        ensures sockets { Changed none_came listener self.old.connections.sockets.deadlines
            self.old.connections.sockets self.new.connections.sockets }
        ensures meetings { self.new.meetings ≡ self.old.meetings }
        ensures steps { Steps self.old.connections.sockets self.new.connections.sockets }
    {
        self.connections.sockets.nothing(listener);
    }

    /// An accept failed at a listener, as it does without a descriptor left: it is tried again 100 milliseconds later.
    pub fn unaccepted(&mut self, listener: usize, now: u64)
        ensures not_asked { accepts (life_at self.old.connections.sockets listener) ≡ false
            → self.new.connections.sockets ≡ record self.old.connections.sockets {
              time = max self.old.connections.sockets.time now;
            } }
        ensures meetings { self.new.meetings ≡ self.old.meetings }
        ensures steps { Steps self.old.connections.sockets self.new.connections.sockets }
    {
        self.connections.pass(now);
        self.connections.fail_to_accept(listener);
    }

    /// Who has connected there joins, waits for its header to come, or is to be let go.
    fn come_in(&mut self, peer: Peer, group: usize) -> Result<usize, Refusal>
        ensures joined { IfOk result (λ socket. (c u p : ℕ) → peer.place ≡ Port c u p
            → (m : Known) × (member_at self.new.meetings socket ≡ Some m)
            × (m.conference ≡ c) × (m.user ≡ u)
            × IsNew self.new.meetings.hub m.number) }
        ensures at_door { IfOk result (λ socket. (named_by : By) (p : ℕ)
            → peer.place ≡ Door named_by p
            → is_at_door (socket_at self.new.connections.table socket) ≡ true) }
        ensures asked { IfErr result (λ why. why ≢ NotAsked) }
        ensures client { IfOk result (λ socket. ((peer.place ≡ Control) ⊎ (peer.place ≡ Observe))
            → client_of (socket_at self.new.connections.table socket) ≡ Some peer.place) }
        ensures refused { IfErr result (λ why. (c u p : ℕ) → peer.place ≡ Port c u p
            → ((why ≡ Memory) × (self.new.meetings ≡ self.old.meetings)) ⊎ ((socket : ℕ)
            × IsDeclined socket c u self.old.connections.conferences
            self.old.meetings self.new.meetings why)) }
        ensures spares { is_held_place self.old.connections.conferences peer.place ≡ false
            → MovesFree self.old.connections.conferences self.old.meetings self.new.meetings }
        ensures moves { Moves nothing_taken self.old.meetings self.new.meetings }
        ensures steps { Steps self.old.connections.sockets self.new.connections.sockets }
    {
        match peer.place {
            Place::Port {
                conference,
                user,
                ..
            } => self.enter_at_port(peer, group, conference, user),
            Place::Door { named_by, .. } => self.connections.open_at_door(peer, named_by),
            Place::Health { .. } => self.connections.open_probe(),
            Place::Control => self.connections.open_client(peer.place, Role::Control),
            Place::Observe => self.connections.open_client(peer.place, Role::Observer),
        }
    }

    /// Who has connected to a user's port joins its conference.
    fn enter_at_port(
        &mut self,
        peer: Peer,
        group: usize,
        conference: u32,
        user: u16,
    ) -> Result<usize, Refusal>
        ensures joined { IfOk result (λ socket. (m : Known)
            × (member_at self.new.meetings socket ≡ Some m)
            × (m.conference ≡ conference) × (m.user ≡ user)
            × IsNew self.new.meetings.hub m.number) }
        ensures asked { IfErr result (λ why. why ≢ NotAsked) }
        ensures refused { IfErr result (λ why. ((why ≡ Memory)
            × (self.new.meetings ≡ self.old.meetings)) ⊎ ((socket : ℕ)
            × IsDeclined socket conference user self.old.connections.conferences
            self.old.meetings self.new.meetings why)) }
        ensures spares { is_held self.old.connections.conferences conference ≡ false
            → MovesFree self.old.connections.conferences self.old.meetings self.new.meetings }
        ensures moves { Moves nothing_taken self.old.meetings self.new.meetings }
        ensures steps { Steps self.old.connections.sockets self.new.connections.sockets }
    {
        let socket = match self.connections.open_member(peer, group) {
            Ok(socket) => socket,
            Err(refusal) => return Err(refusal),
        };
        match self.join(socket, conference, user) {
            Ok(()) => Ok(socket),
            Err(refusal) => {
                self.connections.take_back(socket);
                Err(refusal)
            }
        }
    }

    /// Who is at a socket joins a conference as this user. Nobody leaves for who may not.
    pub(crate) fn join(&mut self, socket: usize, conference: u32, user: u16) -> Result<(), Refusal>
        ensures joined { OnOk result ((m : Known) × (member_at self.new.meetings socket ≡ Some m)
            × (m.conference ≡ conference) × (m.user ≡ user)
            × IsNew self.new.meetings.hub m.number) }
        ensures entered { OnOk result (HasJoined socket conference user
            self.old.connections.conferences self.old.meetings self.new.meetings) }
        ensures asked { IfErr result (λ why. why ≢ NotAsked) }
        ensures refused { IfErr result (IsDeclined socket conference user
            self.old.connections.conferences self.old.meetings self.new.meetings) }
        ensures table { self.new.connections.table ≡ self.old.connections.table }
        ensures spares { is_held self.old.connections.conferences conference ≡ false
            → MovesFree self.old.connections.conferences self.old.meetings self.new.meetings }
        ensures moves { Moves nothing_taken self.old.meetings self.new.meetings }
        ensures steps { Steps self.old.connections.sockets self.new.connections.sockets }
    {
        self.check(socket, conference, user)?;
        self.touched = Some(conference);
        let now = self.connections.millis();
        let gone = self.meetings.make_room(self.alloc, conference, user, now);
        let joined = self
            .meetings
            .join(self.alloc, socket, conference, user, now);
        self.connections.tell_gone(gone);
        self.connections.tell_back(self.meetings.hub().back());
        match joined {
            Ok(()) => {
                let who = who_at(&self.meetings, socket);
                self.connections.tell_joined(socket, who);
                Ok(())
            }
            Err(refusal) => {
                see_to_broken(&mut self.connections, &self.meetings, conference);
                Err(Refusal::AtMeeting(refusal))
            }
        }
    }

    /// Whether it may.
    fn check(&self, socket: usize, conference: u32, user: u16) -> Result<(), Refusal>
        ensures may { OnOk result (MayJoin socket conference user
            self.now.connections.conferences self.now.meetings) }
        ensures asked { IfErr result (λ why. why ≢ NotAsked) }
        ensures refused { IfErr result (IsTurnedDown socket conference user
            self.now.connections.conferences self.now.meetings) }
    {
        if self.connections.conferences.is_banned(conference, user) {
            return Err(Refusal::Removed);
        }
        if is_full_for(&self.meetings, conference, user) {
            return Err(Refusal::AtMeeting(JoinRefusal::UserConnections));
        }
        match self.meetings.check(socket, conference, user) {
            Ok(()) => Ok(()),
            Err(refusal) => Err(Refusal::AtMeeting(refusal)),
        }
    }
}

/// A conference that want of memory has broken off is told of, once, and its ports aren't listened on any more.
fn see_to_broken(connections: &mut Connections, meetings: &Meetings, conference: u32)
    ensures table { connections.new.table ≡ connections.old.table }
    ensures steps { Steps connections.old.sockets connections.new.sockets }
{
    match phase_of(meetings, conference) {
        Some(Phase::Broken) => connections.break_off(conference),
        Some(Phase::Running | Phase::Ended) | None => {}
    }
}
