//! What the sessions send, and what is due of them.

use crate::entry::Entry;
use crate::gate::Gate;
use floor_datagram::{End, Session};
use floor_sessions::Seat;
use std::net::{Net, SocketAddr};
use std::sync::Wait;
use std::time::Clock;

impl<R> Gate<R>
where
    R: Net + Clock + Wait + Copy + Drop,
{
    /// Takes the session from a place, for one call.
    pub fn take_seat(&mut self, place: usize) -> Option<Seat> {
        if place < self.sessions.len() {
            return self.sessions.take(place);
        }
        None
    }

    /// Puts it back.
    pub fn put_seat(&mut self, place: usize, seat: Seat) {
        if place < self.sessions.len() {
            self.sessions.put(place, Some(seat));
        }
    }

    /// Does what follows from a call of the session at a place: sends its datagrams, to the address and port that it
    /// is bound to where no other is named, ends its connection where it has ended, and notes what is due.
    pub fn settle(&mut self, place: usize, peer: Option<SocketAddr>) {
        self.send(place, peer);
        let (end, due, awaits) = match self.seat_at(place) {
            Some(seat) => (
                seat.session.end(),
                due_of(&seat.session),
                seat.session.due().is_some(),
            ),
            None => (None, None, false),
        };
        let Some(beside) = self.places.get_mut(place) else {
            return;
        };
        beside.due = due;
        beside.awaits = awaits;
        let number = beside.link;
        let has_ended = beside.is_live && end.is_some();
        self.note_due(due);
        if let Some(number) = number {
            self.queue(number);
        }
        if has_ended {
            self.leave(place, end.unwrap_or(End::Lost), number);
        }
    }

    /// The session at a place has ended.
    fn leave(&mut self, place: usize, end: End, number: Option<u64>) {
        self.tell_left(place, end);
        if let Some(beside) = self.places.get_mut(place) {
            beside.link = None;
        }
        match number {
            None => {}
            // What it would have sent isn't known any more.
            Some(number) if end == End::Memory => self.lose_link(Some(number)),
            Some(number) => self.end_link(number),
        }
    }

    /// Tells that the session at a place has ended.
    pub fn tell_left(&mut self, place: usize, end: End) {
        if let Some(beside) = self.places.get_mut(place) {
            beside.is_live = false;
        }
        if let Some(user) = self.table.users().get(place).copied() {
            self.tell(&Entry::Left {
                conference: user.conference,
                user: user.user,
                end,
            });
        }
    }

    /// Sends the datagrams that wait, as many bytes as a peer may be sent.
    fn send(&mut self, place: usize, peer: Option<SocketAddr>) {
        let now = self.now;
        let Some(beside) = self.places.get_mut(place) else {
            return;
        };
        let to = peer.or(beside.peer);
        for datagram in &self.down {
            let len = u32::try_from(datagram.len()).unwrap_or(u32::MAX);
            match to {
                Some(to) if beside.sent.take(len, now) => {
                    // A network may lose it as well.
                    let _sent = self.socket.send_to(datagram.as_slice(), to);
                }
                _ => self.dropped = self.dropped.saturating_add(1),
            }
        }
        self.down.clear();
    }

    /// The session at a place.
    pub fn seat_at(&self, place: usize) -> Option<&Seat> {
        if place < self.sessions.len() {
            return self.sessions.seat(place);
        }
        None
    }

    /// Something is due by then, where it is.
    pub fn note_due(&mut self, due: Option<u64>) {
        if let Some(due) = due {
            self.next = Some(self.next.map_or(due, |next| next.min(due)));
        }
    }

    /// Does what is due by now of each session and of each connection.
    pub fn be_late(&mut self) {
        match self.next {
            Some(next) if next <= self.now => {}
            _ => return,
        }
        self.next = None;
        for place in 0..self.places.len() {
            self.be_late_at(place);
        }
        self.end_late_links();
    }

    /// Does what is due of the session at a place.
    fn be_late_at(&mut self, place: usize) {
        let due = match self.places.get(place) {
            Some(beside) => beside.due,
            None => None,
        };
        match due {
            Some(due) if due <= self.now => {}
            due => return self.note_due(due),
        }
        let Some(mut seat) = self.take_seat(place) else {
            return;
        };
        let mut up = self.lend_up(place);
        let _memory = seat.session.time(self.now, &mut up, &mut self.down);
        self.give_up_back(place, up);
        if is_over(&seat.session, self.now) {
            self.down.clear();
            return self.clear(place);
        }
        self.put_seat(place, seat);
        self.settle(place, None);
    }

    /// Nothing is known of a session any more that has ended.
    fn clear(&mut self, place: usize) {
        if let Some(beside) = self.places.get_mut(place) {
            beside.due = None;
            beside.awaits = false;
        }
        self.table.clear(place);
    }

    /// Ends the connections whose time is over.
    fn end_late_links(&mut self) {
        for index in 0..self.links.len() {
            let Some((number, link)) = self.links.get_index(index) else {
                return;
            };
            let number = *number;
            let until = link.until;
            let is_needed = link.is_ending || link.before.is_some() || !link.is_connected();
            if !is_needed {
                continue;
            }
            if self.now < until {
                self.note_due(Some(until));
            } else {
                // The others that are late are found by the next look.
                self.note_due(Some(self.now));
                return self.end_late_link(number);
            }
        }
    }

    /// Ends a connection whose time is over, or the one before it.
    fn end_late_link(&mut self, number: u64) {
        let Some(link) = self.links.get_mut(&number) else {
            return;
        };
        if link.is_ending || !link.is_connected() {
            return self.end_of_link(number);
        }
        let before = link.before.take();
        self.lose_link(before);
    }
}

/// When something is due of a session: behind its end, that it is forgotten.
fn due_of(session: &Session) -> Option<u64> {
    let due = session.due();
    if session.end().is_none() {
        return due;
    }
    let forgotten = forgotten_at(session);
    Some(due.map_or(forgotten, |due| due.min(forgotten)))
}

/// When a session that has ended is forgotten: so long behind its end as an answer is kept.
fn forgotten_at(session: &Session) -> u64 {
    session.ended().saturating_add(u64::from(session.t2()))
}

/// Whether a session has ended, tells nothing more, and may be forgotten.
fn is_over(session: &Session, now: u64) -> bool {
    session.end().is_some() && session.due().is_none() && forgotten_at(session) <= now
}
