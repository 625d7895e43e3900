//! A connection's turn: what came is read and served, what is queued is written, and who is to be shut down is.

ghost use Rattle.std.specs.Prelude.{◌≡◌, ℕ, [], OnOk, false, nat_eq};
ghost use Rattle.floor_hub.specs.declared.step.Step.TheVariants.{Leave, Serve};
ghost use Rattle.floor_loop.specs.Done.{AtMost, Each, Hands, Reads, Steps};
ghost use Rattle.floor_loop.specs.Loop.{HasFailed, IsEnded};
ghost use Rattle.floor_loop.specs.Written.{Took, TookNothing};
ghost use Rattle.floor_poll.specs.Ends.{IsLetGo};

use crate::away::Closed;
use crate::connection::Connection;
use crate::departure::{End, departure_of};
use crate::keeping::MaySend;
use crate::worker::Worker;
use floor_loop::{ConnNo, HubRefusal, Loop};
use floor_room::Phase;
use floor_server::{Departure, Entry, Peer};
use floor_streams::{Found, Written, shut_down, write_once};
use std::mem;
use std::sync::Wait;
use std::time::{Clock, Instant};

/// How many messages of a connection a turn begins with.
const FIRST: u32 = 2;

/// How many are served between two looks at the clock, and how often they are.
const GROUP: u32 = 8;

const MAX_GROUPS: u32 = 7;

/// How many bytes a connection has sent at most until they are counted as its conference's.
const MAX_UNCOUNTED: u64 = 65_536;

/// How long a turn takes until no further messages are served, in microseconds.
const MAX_TURN_MICROS: u128 = 1_000;

impl<R: Clock + Wait + Copy + Drop> Worker<R> {
    /// Has a connection served, each once; one whose last turn was long behind the others. There is room for each
    /// since it was accepted; without it the connection is given up.
    pub fn queue(&mut self, number: ConnNo) {
        let Some(connection) = self.connections.get_mut(&number) else {
            return;
        };
        if connection.is_queued {
            return;
        }
        let put = if connection.is_long {
            self.long_turns.push_back(number)
        } else {
            self.turns.push_back(number)
        };
        match put {
            Ok(()) => connection.is_queued = true,
            Err(_) => self.fail(number),
        }
    }

    /// Gives each that is to be served a turn, but of those whose last turn was long only one: the others wait until
    /// what has become ready meanwhile was served, so that nobody waits for all of them.
    pub fn serve_turns(&mut self) {
        for _ in 0..self.turns.len() {
            match self.turns.pop_front() {
                Some(number) => self.give_turn(number),
                None => break,
            }
        }
        if let Some(number) = self.long_turns.pop_front() {
            self.give_turn(number);
        }
    }

    /// Gives one a turn.
    fn give_turn(&mut self, number: ConnNo) {
        self.serve_turn(number);
        self.write_turn();
    }

    /// Reads once from a connection, and serves what came; or goes on where a turn has left something over.
    /// Of whom is to be shut down nothing more is read.
    fn serve_turn(&mut self, number: ConnNo) {
        let is_over = self.hub.until(number).is_some();
        let Some(connection) = self.connections.get_mut(&number) else {
            return;
        };
        connection.is_queued = false;
        if is_over {
            connection.is_readable = false;
            connection.has_more = false;
            return;
        }
        if connection.has_more {
            let served = self.serve_messages(number, 0);
            self.go_on(number, served);
        } else if connection.is_too_long {
            self.hear_out(number);
            self.note_end(number, End::TooLong);
        } else if connection.is_readable {
            let found = connection.read(self.buffer.as_mut_slice(), self.longest);
            if MAX_UNCOUNTED <= connection.received {
                let received = mem::replace(&mut connection.received, 0);
                let conference = connection.peer.to.conference;
                self.count_received(conference, received);
            }
            self.serve_found(number, found);
        }
    }

    /// Counts bytes that the members of a conference have sent, and tells the log where they are many.
    fn count_received(&mut self, conference: u32, bytes: u64)
        ensures hub { self.new.hub ≡ self.old.hub }
        ensures stopping { self.new.is_stopping ≡ self.old.is_stopping }
    {
        let Some(places) = self.conferences.get_mut(&conference) else {
            return;
        };
        if let Some(megabytes) = places.receive(bytes) {
            self.tell(&Entry::Large {
                conference,
                megabytes,
            });
        }
    }

    /// Serves what a read found.
    fn serve_found(&mut self, number: ConnNo, found: Found) {
        match found {
            Found::Bytes(count) => {
                let served = self.serve_messages(number, count);
                self.go_on(number, served);
            }
            Found::Nothing => self.go_on(number, Ok(false)),
            Found::End if self.has_failed(number) => self.fail(number),
            Found::End => {
                self.hear_out(number);
                let held = self.hub.held_len(number);
                self.note_end(number, End::Stream(held));
            }
            Found::Failure => {
                self.fail(number);
                self.note_end(number, End::Failure);
            }
        }
    }

    /// Serves what a connection has sent to its end, which is to be shut down then.
    pub fn hear_out(&mut self, number: ConnNo)
        ensures steps { Steps (Each (Serve number)) self.old.hub.hub self.new.hub.hub }
        ensures ended { IsEnded self.new.hub.attended number }
    {
        let before = self.before_of(number);
        self.hub.ended(number, self.now);
        self.note_messages(before);
    }

    /// The same of a connection whose socket has failed.
    pub fn fail(&mut self, number: ConnNo)
        ensures steps { Steps (Each (Serve number)) self.old.hub.hub self.new.hub.hub }
        ensures failed { HasFailed self.new.hub.attended number }
    {
        let before = self.before_of(number);
        self.hub.failed(number, self.now);
        self.note_messages(before);
    }

    /// Hands in the first so many bytes of the buffer, and serves messages of a connection: 58 at most, and no
    /// further ones once that took a millisecond, since one message may take a hundred thousand times as long as
    /// another. Says whether more may wait.
    fn serve_messages(&mut self, number: ConnNo, count: usize) -> Result<bool, HubRefusal> {
        let begun = Instant::now(&self.rt).ok();
        let first = self.first_of(number);
        let before = self.before_of(number);
        let served = hand_in(&mut self.hub, number, &self.buffer, count, first, self.now);
        self.note_messages(before);
        let mut more = served?;
        let mut is_long = took_long(&self.rt, begun);
        for _ in 0..MAX_GROUPS {
            if !more || is_long {
                break;
            }
            more = self.serve_group(number, &[], GROUP)?;
            is_long = took_long(&self.rt, begun);
        }
        if is_long != (first < FIRST) {
            self.note_long(number, is_long);
        }
        Ok(more)
    }

    /// Hands in bytes, and serves so many messages at most.
    fn serve_group(&mut self, number: ConnNo, bytes: &[u8], most: u32) -> Result<bool, HubRefusal>
        ensures steps { Steps (Reads number bytes.now most) self.old.hub.hub self.new.hub.hub }
        ensures handed { OnOk result
            (Steps (Hands number bytes.now most) self.old.hub.hub self.new.hub.hub) }
        ensures took { TookNothing self.old.hub self.new.hub }
    {
        let before = self.before_of(number);
        let served = self.hub.read(number, bytes, most, self.now);
        self.note_messages(before);
        served
    }

    /// With how many messages a turn begins: with one where the last turn took long.
    fn first_of(&self, number: ConnNo) -> u32 {
        match self.connections.get(&number) {
            Some(connection) if connection.is_long => 1,
            _ => FIRST,
        }
    }

    fn note_long(&mut self, number: ConnNo, is_long: bool) {
        if let Some(connection) = self.connections.get_mut(&number) {
            connection.is_long = is_long;
        }
    }

    /// Serves bytes that came from a connection in front of what its socket has.
    pub fn serve_bytes(&mut self, number: ConnNo, bytes: &[u8]) {
        if bytes.is_empty() {
            return;
        }
        let Some(connection) = self.connections.get_mut(&number) else {
            return;
        };
        let count = connection.pass(bytes, self.longest);
        let served = self.serve_group(number, bytes.get(..count).unwrap_or(&[]), FIRST);
        self.go_on(number, served);
    }

    /// Has a connection served again, where more is to be served.
    fn go_on(&mut self, number: ConnNo, served: Result<bool, HubRefusal>) {
        let Some(connection) = self.connections.get_mut(&number) else {
            return;
        };
        match served {
            Ok(more) => {
                connection.has_more = more;
                if more || connection.is_readable {
                    self.queue(number);
                } else if connection.has_failed {
                    self.fail(number);
                }
            }
            Err(refusal) => {
                connection.has_more = false;
                self.note_end(number, End::Refused(refusal));
            }
        }
    }

    /// Whether the socket of a connection has failed.
    fn has_failed(&self, number: ConnNo) -> bool {
        match self.connections.get(&number) {
            Some(connection) => connection.has_failed,
            None => false,
        }
    }

    /// Takes down how the reading of a connection ended, the first time.
    fn note_end(&mut self, number: ConnNo, end: End) {
        if let Some(connection) = self.connections.get_mut(&number) {
            connection.end = connection.end.or(Some(end));
        }
    }

    /// The same as `write_ready`, but where conferences are kept: then nothing is written before the turn is kept.
    pub fn write_turn(&mut self) {
        if let Some(may) = self.may_send() {
            self.write_ready(may);
        }
    }

    /// Writes to each connection that has something to write, and shuts down each that is to be.
    pub fn write_ready(&mut self, may: MaySend) {
        for _ in 0..u64::MAX {
            match self.hub.ready() {
                Some(number) => self.write(number, may),
                None => return,
            }
        }
    }

    /// Writes what is to be written to a connection, as far as its socket takes it, and shuts it down where it is
    /// to be and nothing is left; once all that is kept is sent, where conferences are kept.
    pub fn write(&mut self, number: ConnNo, may: MaySend) {
        let before = self.before_of(number);
        let is_written = self.write_whole(number, may);
        self.note_taken(before);
        if !is_written || self.hub.until(number).is_none() {
            return;
        }
        if self.keeps() {
            self.put_over(number);
        } else {
            self.end(number);
        }
    }

    /// Writes what is to be written to a connection, as far as its socket takes it, and says whether nothing is left
    /// or its socket has failed. What is told to a member without a connection is dropped.
    fn write_whole(&mut self, number: ConnNo, _may: MaySend) -> bool {
        let Some(connection) = self.connections.get_mut(&number) else {
            self.hub.discard(number);
            return true;
        };
        if connection.has_failed {
            return true;
        }
        connection.is_blocked = false;
        for _ in 0..u64::MAX {
            match write_once(&mut self.hub, &mut connection.stream, number, self.now) {
                Written::All => break,
                Written::Bytes(_) => {}
                Written::Nothing => {
                    connection.is_blocked = true;
                    return false;
                }
                Written::Failure => {
                    connection.note_failure();
                    self.queue(number);
                    break;
                }
            }
        }
        true
    }

    /// Shuts down each connection whose time is over.
    pub fn end_due(&mut self) {
        if self.is_pausing() {
            return self.end_stopped();
        }
        for _ in 0..u64::MAX {
            match self.hub.due(self.now) {
                Some(number) => self.end(number),
                None => break,
            }
        }
        self.write_turn();
    }

    /// Shuts each connection down once a stop has lasted long enough.
    fn end_stopped(&mut self) {
        if self.now < self.stops_by {
            return;
        }
        for _ in 0..self.connections.len() {
            let Some((number, _)) = self.connections.first() else {
                return;
            };
            let number = *number;
            self.end(number);
        }
    }

    /// Shuts a connection down: its member leaves, or stays where it was lost and may.
    pub fn end(&mut self, number: ConnNo)
        ensures steps { Steps (AtMost 1 (Leave number)) self.old.hub.hub self.new.hub.hub }
        ensures others { (k : ℕ) → nat_eq number k ≡ false
            → Took self.old.hub self.new.hub k [] 0 }
        ensures gone { IsLetGo self.old.is_stopping self.new.hub number }
    {
        let before = self.before_of(number);
        self.part_with(number);
        let _count = self.note_events(before);
    }

    /// The same, whatever follows here.
    fn part_with(&mut self, number: ConnNo)
        ensures steps { Steps (AtMost 1 (Leave number)) self.old.hub.hub self.new.hub.hub }
        ensures others { (k : ℕ) → nat_eq number k ≡ false
            → Took self.old.hub self.new.hub k [] 0 }
        ensures gone { IsLetGo self.old.is_stopping self.new.hub number }
    {
        match self.close(number) {
            Some(closed) => self.let_go(number, closed),
            None => self.leave_away(number),
        }
    }

    /// Closes a connection's socket, gives its place back, and says who it was and why it isn't served any more;
    /// `None` where there is none.
    fn close(&mut self, number: ConnNo) -> Option<Closed>
        ensures hub { self.new.hub ≡ self.old.hub }
        ensures stopping { self.new.is_stopping ≡ self.old.is_stopping }
    {
        let mut connection = self.connections.swap_remove(&number)?;
        let departure = self.departure(number, &connection);
        shut_down(&mut connection.stream, self.buffer.as_mut_slice());
        let Peer { to, port: _ } = connection.peer;
        if let Some(places) = self.conferences.get_mut(&to.conference) {
            places.give_back(to.user);
        }
        self.count_received(to.conference, connection.received);
        Some(Closed {
            peer: connection.peer,
            n: connection.n,
            departure,
        })
    }

    /// Why a connection isn't served any more.
    fn departure(&mut self, number: ConnNo, connection: &Connection) -> Departure
        ensures hub { self.new.hub ≡ self.old.hub }
        ensures stopping { self.new.is_stopping ≡ self.old.is_stopping }
    {
        let is_cut = self.hub.is_cut(number);
        self.count_cut(is_cut);
        let phase = self
            .standing(connection.peer.to.conference)
            .map_or(Phase::Ended, |status| status.phase);
        departure_of(phase, is_cut, self.is_stopping, connection.end)
    }

    /// Counts one that leaves, where it is cut.
    pub fn count_cut(&mut self, is_cut: bool)
        ensures hub { self.new.hub ≡ self.old.hub }
        ensures stopping { self.new.is_stopping ≡ self.old.is_stopping }
    {
        if is_cut {
            self.counters.cut = self.counters.cut.saturating_add(1);
        }
    }

    /// Tells the log, where there is one, why a member has left.
    pub fn tell_left(&self, closed: Closed) {
        match &self.log {
            Some(log) => log.tell_left(&self.rt, closed.peer, closed.n, closed.departure),
            None => {}
        }
    }
}

/// Hands the first so many bytes of a buffer in, as they came from a connection, and serves so many messages.
fn hand_in(
    hub: &mut Loop,
    number: ConnNo,
    buffer: &Vec<u8>,
    count: usize,
    most: u32,
    now: u64,
) -> Result<bool, HubRefusal> {
    let bytes = buffer.as_slice().get(..count).unwrap_or(&[]);
    hub.read(number, bytes, most, now)
}

/// Whether a turn that began then has taken long.
fn took_long<R: Clock>(rt: &R, begun: Option<Instant>) -> bool {
    match (begun, Instant::now(rt)) {
        (Some(begun), Ok(now)) => MAX_TURN_MICROS <= now.duration_since(begun).as_micros(),
        _ => false,
    }
}
