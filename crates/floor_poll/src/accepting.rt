//! Who connects to a port is accepted, and joins its conference; and so does who comes by a door.

use crate::arrival::Arrival;
use crate::connection::Connection;
use crate::counters::count_refused;
use crate::departure::refused_by;
use crate::mailbox::Mailbox;
use crate::port::{Accepted, accept};
use crate::worker::Worker;
use floor_loop::ConnNo;
use floor_server::{Entry, Peer, Refused, UserPort, keep_alive};
use mio::net::TcpStream;
use mio::{Interest, Token};
use std::alloc::AllocError;
use std::mem;
use std::sync::Wait;
use std::time::Clock;

/// How many are accepted at a port before others are served.
pub const MAX_ACCEPTS: u32 = 64;

/// How long a port waits where an accept failed, as it does without a descriptor left, in milliseconds.
pub const ACCEPT_AGAIN_MILLIS: u64 = 100;

impl<R: Clock + Wait + Copy + Drop> Worker<R> {
    /// Accepts who waits at a port, 64 at most at a time. Where an accept fails the port is looked at again after
    /// 100 milliseconds.
    pub fn accept_all(&mut self, number: u64) {
        for _ in 0..MAX_ACCEPTS {
            let Some(port) = self.ports.get(&number) else {
                return;
            };
            match accept(&port.listener) {
                Accepted::Stream(stream, own) => {
                    let to = port.place;
                    self.set_failing(number, false);
                    self.attach(stream, Peer { to, port: own });
                }
                Accepted::Nobody => return,
                Accepted::Gone => {}
                Accepted::Failure => {
                    self.counters.accept_failures = self.counters.accept_failures.saturating_add(1);
                    self.set_failing(number, true);
                    self.look_again(number, ACCEPT_AGAIN_MILLIS);
                    return;
                }
            }
        }
        self.look_again(number, 0);
    }

    /// Looks again at the ports at which somebody may still wait, where it is time.
    pub fn accept_again(&mut self) {
        match self.again {
            Some(again) if again <= self.now => {}
            _ => return,
        }
        self.again = None;
        for _ in 0..self.waiting.len() {
            let Some(number) = self.waiting.pop_front() else {
                return;
            };
            if let Some(port) = self.ports.get_mut(&number) {
                port.is_waiting = false;
            }
            self.accept_all(number);
        }
    }

    /// Has a port looked at again after so many milliseconds. There is room for it since it was listened on.
    fn look_again(&mut self, number: u64, millis: u64) {
        let again = self.now.saturating_add(millis);
        self.again = Some(self.again.map_or(again, |other| other.min(again)));
        let Some(port) = self.ports.get_mut(&number) else {
            return;
        };
        if !port.is_waiting {
            port.is_waiting = self.waiting.push_back(number).is_ok();
        }
    }

    /// Takes down whether a port's accept failed, and tells the log of a change.
    fn set_failing(&mut self, number: u64, is_failing: bool) {
        let Some(port) = self.ports.get_mut(&number) else {
            return;
        };
        let place = port.place;
        match (mem::replace(&mut port.is_failing, is_failing), is_failing) {
            (false, true) => self.tell(&Entry::CannotAccept(place)),
            (true, false) => self.tell(&Entry::Accepts(place)),
            (true, true) | (false, false) => {}
        }
    }

    /// Attaches a connection to its conference. Where it isn't let in the log is told why, and its socket is
    /// closed.
    fn attach(&mut self, stream: TcpStream, peer: Peer) {
        match self.join(peer.to) {
            Ok(number) => self.add(number, stream, peer),
            Err(cause) => {
                count_refused(&mut self.counters.refused, cause);
                self.tell(&Entry::Refused { peer, cause });
            }
        }
    }

    /// Lets those in who have come by a door.
    pub fn enter_all(&mut self, mailbox: &Mailbox) {
        let rt = self.rt;
        for _ in 0..mailbox.waiting(&rt) {
            match mailbox.next_arrival(&rt) {
                Some(arrival) => self.enter(arrival),
                None => return,
            }
        }
    }

    /// Lets one in who has come by a door, and serves what came behind the header.
    fn enter(&mut self, arrival: Arrival) {
        if self.is_stopping {
            return;
        }
        let peer = arrival.peer;
        match self.join(peer.to) {
            Ok(number) => {
                let Arrival { stream, header, .. } = arrival;
                self.add(number, stream, peer);
                self.serve_bytes(number, header.rest());
            }
            Err(cause) => {
                count_refused(&mut self.counters.refused, cause);
                self.tell(&Entry::RefusedAtDoor {
                    door: arrival.door,
                    peer: peer.port,
                    cause,
                });
            }
        }
    }

    /// Has whoever connects to this port join its conference, with a place there and room here.
    fn join(&mut self, to: UserPort) -> Result<ConnNo, Refused> {
        self.reserve()?;
        let Some(places) = self.conferences.get_mut(&to.conference) else {
            return Err(Refused::NoConference);
        };
        places.take(to.user)?;
        let before = self.before(to.conference);
        self.make_room(to);
        let attached = self
            .hub
            .attach(self.alloc, to.conference, to.user, self.now);
        let _count = self.note_events(before);
        self.note_back();
        match attached {
            Ok(number) => Ok(number),
            Err(refusal) => {
                if let Some(places) = self.conferences.get_mut(&to.conference) {
                    places.give_back(to.user);
                }
                Err(refused_by(refusal))
            }
        }
    }

    /// Where a conference has as many members as it may, the user's own member that was lost first leaves.
    fn make_room(&mut self, to: UserPort) {
        if !self.lasts {
            return;
        }
        let gone = self
            .hub
            .make_room(self.alloc, to.conference, to.user, self.now);
        if let Some(number) = gone {
            self.take_back(number);
        }
    }

    /// Takes room for one connection more.
    fn reserve(&mut self) -> Result<(), Refused> {
        let count = self.connections.len().saturating_add(1);
        if self.connections.reserve(1).is_err() || self.reserve_turns(count).is_err() {
            return Err(Refused::Memory);
        }
        if !self.lasts {
            return Ok(());
        }
        match self.reserve_lasting(count) {
            Ok(()) => Ok(()),
            Err(_) => Err(Refused::Memory),
        }
    }

    /// Takes room for so many that may be served, in either line.
    fn reserve_turns(&mut self, count: usize) -> Result<(), AllocError> {
        self.turns.reserve(count)?;
        self.long_turns.reserve(count)
    }

    /// Takes room for so many that may be lost, and that may be written and shut down once a turn is kept.
    fn reserve_lasting(&mut self, count: usize) -> Result<(), AllocError> {
        self.away.reserve(count)?;
        let over = self.over_count();
        self.over.reserve(over)?;
        self.unblocked.reserve(count)
    }

    /// Takes a connection in that has joined.
    fn add(&mut self, number: ConnNo, mut stream: TcpStream, peer: Peer) {
        let n = self.hub.place(number).map_or(0, |place| place.n);
        self.joined = self.joined.saturating_add(1);
        self.tell(&Entry::Joined { peer, n });
        let _is_told = keep_alive(&stream);
        // Without it a small answer waits for the next.
        let _outcome = stream.set_nodelay(true);
        let token = Token((number as usize).saturating_mul(2));
        let interests = Interest::READABLE | Interest::WRITABLE;
        let is_told = self
            .poll
            .registry()
            .register(&mut stream, token, interests)
            .is_ok();
        let added = self
            .connections
            .insert(number, Connection::new(stream, peer, n));
        if !is_told || added.is_err() {
            // Nothing would ever be told of it.
            self.fail(number);
        }
    }
}
