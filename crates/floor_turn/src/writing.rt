//! What is written to sockets.

ghost use Rattle.std.specs.Prelude.{◌≡◌, ◌&&◌, ◌||◌, IsSome, MatchOption, ℕ, None, Some, false, length, min, not, true};
ghost use Rattle.std.specs.Option.{option_map_or};
ghost use Rattle.floor_loop.specs.Loop.{ready_at};
ghost use Rattle.floor_meetings.specs.Calls.{Takes};
ghost use Rattle.floor_meetings.specs.Meetings.{lent_at, member_at, shut_by};
ghost use Rattle.floor_sockets.specs.Life.{unblocked};
ghost use Rattle.floor_sockets.specs.Sockets.{Changed, life_at};
ghost use Rattle.floor_connections.specs.Asked.{is_ending, writes};
ghost use Rattle.floor_connections.specs.Steps.{Steps, at_time};
ghost use Rattle.floor_connections.specs.declared.conferences.Conferences.{Conferences as Held};
ghost use Rattle.floor_turn.specs.Held.{MovesFree};
ghost use Rattle.floor_turn.specs.Moves.{Moves, nothing_taken, taken_at, taken_of};
ghost use Rattle.floor_turn.specs.Over.{IsUnwritten};

use crate::meeting::touched_at;
use crate::server::Server;
use floor_connections::{Connections, is_over, is_writing};
use floor_meetings::{Meetings, Ready};
use floor_sockets::Sockets;

/// How many bytes wait for further turns of a member's messages that came at once, so that one write takes the answers of
/// all of them: what answers 64 Hellos, which is our choice.
const MAX_WAITING: usize = 3_072;

impl Server {
    /// The poll told that a socket takes bytes.
    pub fn writable(&mut self, socket: usize)
        ensures sockets { Changed unblocked socket self.old.connections.sockets.deadlines
            self.old.connections.sockets self.new.connections.sockets }
        ensures meetings { self.new.meetings ≡ self.old.meetings }
        ensures steps { Steps self.old.connections.sockets self.new.connections.sockets }
    {
        self.connections.sockets.writable(socket);
    }

    /// A socket took so many of the bytes that were lent; a count above them counts as all. Where it took fewer it isn't
    /// written before it is `writable`.
    pub fn took(&mut self, socket: usize, count: usize, now: u64)
        ensures took { writes (life_at self.old.connections.sockets socket) ≡ true
            → MatchOption (member_at self.old.meetings socket)
            (self.new.meetings.hub ≡ self.old.meetings.hub)
            (λ m. Takes m.number (min count (length (lent_at self.old.meetings socket)))
            self.old.meetings.hub self.new.meetings.hub) }
        ensures not_asked { writes (life_at self.old.connections.sockets socket) ≡ false
            → self.new.meetings ≡ self.old.meetings }
        ensures members { self.new.meetings.members ≡ self.old.meetings.members }
        ensures moves { Moves (taken_at socket
            (taken_of (writes (life_at self.old.connections.sockets socket)) count
            (lent_at self.old.meetings socket))) self.old.meetings self.new.meetings }
        ensures steps { Steps self.old.connections.sockets self.new.connections.sockets }
    {
        self.connections.pass(now);
        if !is_writing(&self.connections.sockets, socket) {
            return;
        }
        self.touched = touched_at(&self.meetings, socket, self.touched);
        let lent = self.meetings.lent(socket).len();
        self.meetings.took(socket, count, self.connections.millis());
        self.connections.sockets.took(socket, count, lent);
        see_to(&mut self.connections, &self.meetings, socket);
    }

    /// A write to a socket failed, as where its peer has reset the connection: it took none, and isn't written before it is
    /// told more. What the system has of the peer is read first, and a read that finds no more is one that `failed`. One
    /// that is to be shut down isn't read any more: it is shut at once, and why it is stays what it was. A client's too.
    pub fn unwritten(&mut self, socket: usize, now: u64)
        ensures took { writes (life_at self.old.connections.sockets socket) ≡ true
            → IsUnwritten socket (at_time now self.old.connections.sockets)
            self.new.connections.sockets }
        ensures not_asked { writes (life_at self.old.connections.sockets socket) ≡ false
            → self.new.connections.sockets ≡ at_time now self.old.connections.sockets }
        ensures table { self.new.connections.table ≡ self.old.connections.table }
        ensures meetings { self.new.meetings ≡ self.old.meetings }
        ensures moves { Moves nothing_taken self.old.meetings self.new.meetings }
        ensures steps { Steps self.old.connections.sockets self.new.connections.sockets }
    {
        self.connections.pass(now);
        if is_writing(&self.connections.sockets, socket) {
            fail_to_write(&mut self.connections, socket);
        }
    }

    /// Whoever is ready is seen to. Says whether anybody was.
    pub(crate) fn see_to_ready(&mut self) -> bool
        ensures none { result ≡ false
            → (number : ℕ) → ready_at self.old.meetings.hub number ≡ None }
        ensures members { self.new.meetings.members ≡ self.old.meetings.members }
        ensures spares { (cs : Held) → MovesFree cs self.old.meetings self.new.meetings }
        ensures rests { result ≡ false
            → self.new.connections.conferences ≡ self.old.connections.conferences }
        ensures moves { Moves nothing_taken self.old.meetings self.new.meetings }
        ensures steps { Steps self.old.connections.sockets self.new.connections.sockets }
    {
        match self.meetings.ready() {
            Some(Ready::Member(socket)) => {
                see_to(&mut self.connections, &self.meetings, socket);
                true
            }
            Some(Ready::Away(number)) => {
                self.meetings.discard(number);
                true
            }
            None => false,
        }
    }
}

/// What is lent to a member is written, unless messages of it are served first; one that is to be shut down isn't read any
/// more, and is shut once nothing is lent to it.
pub(crate) fn see_to(connections: &mut Connections, meetings: &Meetings, socket: usize)
    ensures ends { IsSome (shut_by meetings.now socket)
        → is_ending (life_at connections.new.sockets socket) ≡ true }
    ensures steps { Steps connections.old.sockets connections.new.sockets }
{
    let count = meetings.lent(socket).len();
    let ends = meetings.until(socket).is_some();
    let waits = !ends && count < MAX_WAITING && is_served_next(&connections.sockets, socket);
    connections.lend(socket, count != 0 && !waits, ends);
}

/// Whether a turn of a socket is left over, which is served before anything is read.
fn is_served_next(sockets: &Sockets, socket: usize) -> bool
    ensures value { result ≡ option_map_or (λ l. l.has_more && not (l.is_held || l.is_over))
        (life_at sockets.now socket) false }
{
    match sockets.get(socket) {
        Some(life) => life.has_more && !(life.is_held || life.is_over),
        None => false,
    }
}

/// A write that was asked failed: whoever is to be shut down is shut at once, any other is read first.
fn fail_to_write(connections: &mut Connections, socket: usize)
    ensures took { IsUnwritten socket connections.old.sockets connections.new.sockets }
    ensures table { connections.new.table ≡ connections.old.table }
    ensures steps { Steps connections.old.sockets connections.new.sockets }
{
    if is_over(&connections.sockets, socket) {
        connections.sockets.fail(socket);
        return;
    }
    connections.sockets.took(socket, 0, 0);
    connections.sockets.readable(socket, true);
}
