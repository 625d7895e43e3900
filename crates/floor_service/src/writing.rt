//! What is written to sockets.
#![tactic(auto, using(crate::proofs::Moving::unmoved, crate::proofs::Moving::moved_then, crate::proofs::Moving::moved_and_same, crate::proofs::Attending::unattended, crate::proofs::Attending::attended_then, crate::proofs::Attending::attended_and_same, crate::proofs::Attending::carried_too, crate::proofs::Settled::settled_same, crate::proofs::Settled::settled_then))]

ghost use Rattle.std.specs.Prelude.{◌≡◌, ◌≢◌, MatchOption, None, Some, length, min};
ghost use Rattle.floor_connections.specs.Asked.{is_ending, writes};
ghost use Rattle.floor_connections.specs.Steps.{at_time};
ghost use Rattle.floor_connections.specs.declared.place.Place.{Place as At};
ghost use Rattle.floor_connections.specs.Table.{client_of, socket_at};
ghost use Rattle.floor_meetings.specs.Calls.{Takes as TakesOf};
ghost use Rattle.floor_meetings.specs.Meetings.{lent_at, member_at};
ghost use Rattle.floor_sockets.specs.Sockets.{life_at};
ghost use Rattle.floor_turn.specs.Moves.{Moves, taken_at, taken_of};
ghost use Rattle.floor_turn.specs.Over.{IsUnwritten};
ghost use Rattle.std.specs.Prelude.{false, true};
ghost use Rattle.floor_desk.specs.Attending.{Attends, beside};
ghost use Rattle.floor_desk.specs.Callers.{caller_at, lent_to};
ghost use Rattle.floor_service.specs.Calls.{First, FirstAt, OthersAttend, Takes};

use crate::service::Service;
use floor_desk::Now;

impl Service {
    /// What is to be written to a socket, 64 KiB at most: of a client what waits for it, else what is lent to its member.
    pub fn lent(&self, socket: usize) -> &[u8]
        ensures member { client_of (socket_at self.now.server.connections.table socket) ≡ None
            → result.now ≡ lent_at self.now.server.meetings socket }
        ensures client { client_of (socket_at self.now.server.connections.table socket) ≢ None
            → result.now ≡ lent_to (caller_at self.now.desk.callers socket) }
    {
        match self.server.client(socket) {
            Some(_) => self.desk.callers.lent(socket),
            None => self.server.lent(socket),
        }
    }

    /// A socket took so many of the bytes that were lent; a count above them counts as all.
    pub fn took(&mut self, socket: usize, count: usize, now: Now)
        ensures took { client_of (socket_at self.old.server.connections.table socket) ≡ None
            → writes (life_at self.old.server.connections.sockets socket) ≡ true
            → First (λ s. MatchOption (member_at self.old.server.meetings socket)
            (s.meetings.hub ≡ self.old.server.meetings.hub)
            (λ m. TakesOf m.number (min count (length (lent_at self.old.server.meetings socket)))
            self.old.server.meetings.hub s.meetings.hub)) self.new.server }
        ensures member { client_of (socket_at self.old.server.connections.table socket) ≡ None
            → Moves (taken_at socket
            (taken_of (writes (life_at self.old.server.connections.sockets socket)) count
            (lent_at self.old.server.meetings socket)))
            self.old.server.meetings self.new.server.meetings }
        ensures client { client_of (socket_at self.old.server.connections.table socket) ≢ None
            → self.new.server.meetings ≡ self.old.server.meetings }
        ensures taken { client_of (socket_at self.old.server.connections.table socket) ≢ None
            → writes (life_at self.old.server.connections.sockets socket) ≡ true
            → FirstAt socket (Takes count)
            self.old.desk.callers self.new.desk.callers }
        ensures unasked { writes (life_at self.old.server.connections.sockets socket) ≡ false
            → Attends beside self.old.desk.callers self.new.desk.callers }
        ensures others { client_of (socket_at self.old.server.connections.table socket) ≡ None
            → Attends beside self.old.desk.callers self.new.desk.callers }
    {
        self.desk.pass(now);
        if self.is_client(socket) {
            self.client_took(socket, count, now);
            return;
        }
        self.server.took(socket, count, now.micros);
        self.follow();
    }

    /// A write to a socket failed. What the system has of a member is read first; a client is no more, and its socket is shut
    /// at once.
    pub fn unwritten(&mut self, socket: usize, now: Now)
        ensures meetings { self.new.server.meetings ≡ self.old.server.meetings }
        ensures gone { client_of (socket_at self.old.server.connections.table socket) ≢ None
            → caller_at self.new.desk.callers socket ≡ None }
        ensures shut { (p : At) → client_of (socket_at self.old.server.connections.table socket) ≡ Some p
            → is_ending (life_at self.new.server.connections.sockets socket) ≡ true }
        ensures others { OthersAttend socket self.old.desk.callers self.new.desk.callers }
        ensures member { client_of (socket_at self.old.server.connections.table socket) ≡ None
            → self.new.desk.callers ≡ self.old.desk.callers }
        ensures took { client_of (socket_at self.old.server.connections.table socket) ≡ None
            → writes (life_at self.old.server.connections.sockets socket) ≡ true
            → IsUnwritten socket (at_time now.micros self.old.server.connections.sockets)
            self.new.server.connections.sockets }
    {
        self.desk.pass(now);
        if self.is_client(socket) {
            self.lose_client(socket);
            return;
        }
        self.server.unwritten(socket, now.micros);
    }

    /// The socket of a client took so many of the bytes that were lent, where a write was asked.
    fn client_took(&mut self, socket: usize, count: usize, now: Now)
        ensures meetings { self.new.server.meetings ≡ self.old.server.meetings }
        ensures taken { writes (life_at self.old.server.connections.sockets socket) ≡ true
            → FirstAt socket (Takes count)
            self.old.desk.callers self.new.desk.callers }
        ensures unasked { writes (life_at self.old.server.connections.sockets socket) ≡ false
            → self.new.desk.callers ≡ self.old.desk.callers }
    {
        if !self.server.is_written(socket) {
            return;
        }
        let lent = self.desk.callers.took(socket, count);
        self.server.client_took(socket, count, lent, now.micros);
        self.settle(socket);
    }
}
