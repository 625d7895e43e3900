//! The connections to the server, and what passes between them and the sessions.

use crate::entry::Entry;
use crate::gate::{Gate, front};
use crate::link::{Flow, Link};
use floor_datagram::End;
use floor_sessions::{User, Way};
use mio::Token;
use std::mem;
use std::net::{Net, SocketAddr};
use std::sync::Wait;
use std::time::Clock;

/// How often a connection is read before others are served.
const MAX_READS: u32 = 4;

/// How long the server may take to be connected to, and to say something where another connection ends behind that,
/// in milliseconds.
const REACH_MILLIS: u64 = 5_000;

/// How long a connection that ends may take for it, in milliseconds.
const END_MILLIS: u64 = 5_000;

impl<R> Gate<R>
where
    R: Net + Clock + Wait + Copy + Drop,
{
    /// Opens a connection to the server's door, where there is memory and a descriptor for it.
    pub fn open(&mut self, number: u64, conference: u32, user: u16) -> Option<Link> {
        let turns = self.links.len().saturating_add(2);
        if self.links.reserve(1).is_err() || self.turns.reserve(turns).is_err() {
            return None;
        }
        let token = Token(number as usize);
        let registry = self.poll.registry();
        let opened = Link::open(
            &self.rt,
            self.alloc,
            registry,
            token,
            self.manner.door,
            conference,
            user,
        );
        opened.ok()
    }

    /// The session at a place goes on by a new connection. The one before ends once the server has said something to
    /// the new one: so a user whose bound of requests and members stands has joined before it is lost.
    pub fn take_link(
        &mut self,
        place: usize,
        number: u64,
        link: Link,
        up: Vec<u8>,
        before: Option<u64>,
    ) {
        let mut link = link;
        link.up = up;
        link.place = Some(place);
        link.before = before;
        link.until = self.now.saturating_add(REACH_MILLIS);
        self.note_due(Some(link.until));
        if let Some(beside) = self.places.get_mut(place) {
            beside.link = Some(number);
        }
        // There is room for it since it was opened.
        let _added = self.links.insert(number, link);
        self.queue(number);
    }

    /// A session stands at a place, bound to an address and port.
    pub fn seat(&mut self, place: usize, user: User, peer: SocketAddr) {
        if let Some(beside) = self.places.get_mut(place) {
            beside.is_live = true;
            beside.peer = Some(peer);
            beside.link = None;
        }
        self.tell(&Entry::Joined {
            conference: user.conference,
            user: user.user,
            peer,
        });
    }

    /// The session that stood at a place has ended, as another begins there. Gives its connection where that is to
    /// end once the new one has joined.
    pub fn leave_before(&mut self, place: usize, way: Way) -> Option<u64> {
        let Some(beside) = self.places.get_mut(place) else {
            return None;
        };
        if !beside.is_live {
            return None;
        }
        let number = beside.link.take();
        let end = if way == Way::Moves {
            End::Moved
        } else {
            End::Anew
        };
        self.tell_left(place, end);
        if way == Way::Moves {
            self.detach(number);
            return number;
        }
        self.lose_link(number);
        None
    }

    /// A connection is no session's any more.
    fn detach(&mut self, number: Option<u64>) {
        if let Some(number) = number {
            if let Some(link) = self.links.get_mut(&number) {
                link.place = None;
            }
        }
    }

    /// Ends a connection so that the server takes the member as lost.
    pub fn lose_link(&mut self, number: Option<u64>) {
        let until = self.now.saturating_add(END_MILLIS);
        if let Some(number) = number {
            if let Some(link) = self.links.get_mut(&number) {
                link.lose(until);
            }
            self.note_due(Some(until));
            self.queue(number);
        }
    }

    /// Ends a connection behind what is to be sent.
    pub fn end_link(&mut self, number: u64) {
        let until = self.now.saturating_add(END_MILLIS);
        if let Some(link) = self.links.get_mut(&number) {
            link.end(until);
        }
        self.note_due(Some(until));
        self.queue(number);
    }

    /// What the session at a place sends to the server is added to this.
    pub fn lend_up(&mut self, place: usize) -> Vec<u8> {
        let alloc = self.alloc;
        let number = match self.places.get(place) {
            Some(beside) => beside.link,
            None => None,
        };
        if let Some(number) = number {
            if let Some(link) = self.links.get_mut(&number) {
                return mem::replace(&mut link.up, Vec::new(alloc));
            }
        }
        Vec::new(alloc)
    }

    /// It is what the connection of the session at a place has to send.
    pub fn give_up_back(&mut self, place: usize, up: Vec<u8>) {
        let number = match self.places.get(place) {
            Some(beside) => beside.link,
            None => None,
        };
        if let Some(number) = number {
            if let Some(link) = self.links.get_mut(&number) {
                link.up = up;
            }
        }
    }

    /// Serves each connection that is to be served.
    pub fn serve_turns(&mut self) {
        for _ in 0..self.turns.len() {
            let Some(number) = self.turns.pop_front() else {
                return;
            };
            self.serve_link(number);
        }
    }

    /// Writes to a connection, and reads some of what has come.
    fn serve_link(&mut self, number: u64) {
        let Some(link) = self.links.get_mut(&number) else {
            return;
        };
        link.is_queued = false;
        if !link.write() {
            return self.end_of_link(number);
        }
        for _ in 0..MAX_READS {
            let Some(link) = self.links.get_mut(&number) else {
                return;
            };
            if !link.is_readable {
                return;
            }
            match link.read(&mut self.buffer) {
                Flow::Bytes(count) => self.hear(number, count),
                Flow::Nothing => return,
                Flow::Over => return self.end_of_link(number),
            }
        }
        self.queue(number);
    }

    /// Hands so many bytes of the server's, which the buffer has, to the session.
    fn hear(&mut self, number: u64, count: usize) {
        let Some(link) = self.links.get_mut(&number) else {
            return;
        };
        let before = link.before.take();
        let place = link.place;
        self.lose_link(before);
        let Some(place) = place else {
            return;
        };
        let Some(mut seat) = self.take_seat(place) else {
            return;
        };
        let bytes = front(&self.buffer, count);
        let _memory = seat.session.server(bytes, self.now, &mut self.down);
        self.put_seat(place, seat);
        self.settle(place, None);
    }

    /// A connection has ended, or failed.
    pub fn end_of_link(&mut self, number: u64) {
        let Some(link) = self.links.swap_remove(&number) else {
            return;
        };
        self.lose_link(link.before);
        let Some(place) = link.place else {
            return;
        };
        if let Some(beside) = self.places.get_mut(place) {
            beside.link = None;
        }
        self.end_server(place);
        self.settle(place, None);
    }

    /// The session at a place has no server any more.
    pub fn end_server(&mut self, place: usize) {
        let Some(mut seat) = self.take_seat(place) else {
            return;
        };
        let _memory = seat.session.server_ended(self.now, &mut self.down);
        self.put_seat(place, seat);
    }
}
