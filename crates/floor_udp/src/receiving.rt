//! What comes at the socket.

use crate::gate::{Gate, front};
use crate::origin::source_of;
use floor_datagram::error;
use floor_sessions::{Admission, Source, Way, admit};
use std::net::{Net, SocketAddr};
use std::sync::Wait;
use std::time::Clock;

/// How many datagrams are received before others are served.
const MAX_DATAGRAMS: u32 = 256;

impl<R> Gate<R>
where
    R: Net + Clock + Wait + Copy + Drop,
{
    /// Receives what has come, some at a time.
    pub fn receive_some(&mut self) {
        for _ in 0..MAX_DATAGRAMS {
            if !self.is_readable {
                return;
            }
            match self.socket.recv_from(&mut self.buffer) {
                Ok((len, peer)) => self.receive(len, peer),
                Err(error) => match error.kind() {
                    std::io::ErrorKind::Interrupted => {}
                    // What the network tells of a datagram that was sent is nobody's end.
                    std::io::ErrorKind::ConnectionRefused => {}
                    _ => self.is_readable = false,
                },
            }
        }
    }

    /// Does what becomes of the datagram that the buffer has.
    fn receive(&mut self, len: usize, peer: SocketAddr) {
        let from = source_of(peer);
        let datagram = front(&self.buffer, len);
        if datagram.len() < 12 {
            return self.drop_one();
        }
        match admit(self.table.users(), from, datagram) {
            Admission::Dropped => self.drop_one(),
            Admission::Refused(code) => self.refuse(code, len, peer),
            Admission::Admitted(place) => self.go(place, from, len, peer),
        }
    }

    /// Answers a datagram outside of a session by an Error, if one more may be sent.
    fn refuse(&mut self, code: u8, len: usize, peer: SocketAddr) {
        if !self.errors.take(1, self.now) {
            return self.drop_one();
        }
        let datagram = front(&self.buffer, len);
        if datagram.len() < 12 {
            return self.drop_one();
        }
        if let Ok(refusal) = error(self.alloc, code, datagram) {
            let _sent = self.socket.send_to(refusal.as_slice(), peer);
        }
    }

    /// Does what becomes of a datagram of the user at a place.
    fn go(&mut self, place: usize, from: Source, len: usize, peer: SocketAddr) {
        let datagram = front(&self.buffer, len);
        if datagram.len() < 12 || self.sessions.len() <= place {
            return self.drop_one();
        }
        let way = self.sessions.way(place, from, datagram, self.now);
        if !self.may_go(place, way) {
            return self.drop_one();
        }
        match way {
            Way::Dropped => {}
            Way::Begins | Way::Moves | Way::Anew => self.begin(place, way, from, len, peer),
            Way::Onward | Way::Misfit | Way::Parting => self.pass(place, way, from, len, peer),
        }
    }

    /// Whether there is allowance for it.
    fn may_go(&mut self, place: usize, way: Way) -> bool {
        let is_stopping = self.stops_by.is_some();
        let now = self.now;
        let Some(beside) = self.places.get_mut(place) else {
            return false;
        };
        match way {
            Way::Dropped => false,
            Way::Onward | Way::Parting => beside.taken.take(1, now),
            Way::Misfit => self.errors.take(1, now),
            Way::Begins | Way::Moves | Way::Anew => !is_stopping && beside.begun.take(1, now),
        }
    }

    /// A session begins with a datagram. Without a connection to the server it begins all the same: then the
    /// request is answered by error code 14.
    fn begin(&mut self, place: usize, way: Way, from: Source, len: usize, peer: SocketAddr) {
        let Some(user) = self.table.users().get(place).copied() else {
            return;
        };
        let number = self.last.saturating_add(1);
        let link = self.open(number, user.conference, user.user);
        self.last = number;
        let mut up = Vec::new(self.alloc);
        if !self.apply(place, way, from, len, &mut up) {
            return self.drop_one();
        }
        let before = self.leave_before(place, way);
        self.seat(place, user, peer);
        match link {
            Some(link) => self.take_link(place, number, link, up, before),
            None => {
                self.lose_link(before);
                self.end_server(place);
            }
        }
        self.settle(place, Some(peer));
    }

    /// Does what becomes of the datagram that the buffer has, at a place. Tells whether there was memory for it.
    fn apply(
        &mut self,
        place: usize,
        way: Way,
        from: Source,
        len: usize,
        up: &mut Vec<u8>,
    ) -> bool {
        let Some(user) = self.table.users().get(place).copied() else {
            return false;
        };
        let terms = self.terms(user.conference, user.user);
        let datagram = front(&self.buffer, len);
        if datagram.len() < 12 || self.sessions.len() <= place {
            return false;
        }
        let applied = self.sessions.datagram(
            place,
            way,
            terms,
            from,
            datagram,
            self.now,
            up,
            &mut self.down,
        );
        if applied.is_err() {
            self.down.clear();
        }
        applied.is_ok()
    }

    /// A datagram goes to the session at a place, or is answered without one.
    fn pass(&mut self, place: usize, way: Way, from: Source, len: usize, peer: SocketAddr) {
        let mut up = self.lend_up(place);
        let _memory = self.apply(place, way, from, len, &mut up);
        self.give_up_back(place, up);
        self.settle(place, Some(peer));
    }
}
