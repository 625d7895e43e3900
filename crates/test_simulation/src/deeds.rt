//! Deeds: each is a call of the system, whose answer is handed in.

use crate::fault::{Fault, demand};
use crate::model::Course;
use crate::peer::{Life, Stage};
use crate::run::Run;
use crate::world::{Holder, Listener};
use floor_turn::{Departure, Entry, Fault as EndFault, MAX_READ, Place};
use std::collections::VecDeque;

/// How many slots there are at most that nobody has and that aren't given yet: at each listener that of who was refused
/// just now.
const MAX_SPARE: usize = 16;

/// How long a listener waits behind an accept that failed, and somebody at a door has to say who it is, in microseconds.
const AGAIN: u64 = 100_000;

const HEADER: u64 = 5_000_000;

impl Run {
    /// Listens, as is asked.
    pub fn listen(&mut self, slot: usize, place: Place) -> Result<(), Fault> {
        let is_denied = self.model.world.is_denied;
        if is_denied {
            self.model.log(Entry::CannotListen(place))?;
            if self.model.course == Course::Starting {
                self.model.stop(Some(EndFault::CannotListen(place)))?;
            }
        } else {
            let listener = Listener {
                place,
                queue: VecDeque::new(self.model.world.alloc),
                tells: false,
                is_failing: false,
                again: None,
            };
            self.model.world.put(slot, Holder::Listener(listener))?;
            self.model.log(Entry::Listens(place))?;
        }
        self.server.listened(slot, !is_denied);
        Ok(())
    }

    /// Listens no more, as is asked: who waited there is gone.
    pub fn unlisten(&mut self, slot: usize) -> Result<(), Fault> {
        let place = self.model.world.listener_mut(slot)?.place;
        demand(
            self.model.is_over(place),
            "it isn't listened any more",
            slot,
        )?;
        self.model.world.free(slot);
        self.model.log(Entry::Ended(place))?;
        self.server.shut(slot);
        Ok(())
    }

    /// Accepts who waits.
    pub fn accept(&mut self, slot: usize) -> Result<(), Fault> {
        let now = self.model.pass();
        let again = self.model.told.saturating_add(AGAIN);
        let is_starved = self.model.world.is_starved;
        let listener = self.model.world.listener_mut(slot)?;
        let (place, was_failing) = (listener.place, listener.is_failing);
        listener.again = None;
        match listener.queue.front().copied() {
            None => self.server.nobody(slot),
            Some(_) if is_starved => {
                listener.again = Some(again);
                listener.is_failing = true;
                if !was_failing {
                    self.model.log(Entry::CannotAccept(place))?;
                }
                self.server.unaccepted(slot, now);
            }
            Some(number) => {
                let _number = listener.queue.pop_front();
                listener.is_failing = false;
                if was_failing {
                    self.model.log(Entry::Accepts(place))?;
                }
                self.let_in(slot, number, place)?;
            }
        }
        self.model.note_turn(match place {
            Place::Port { conference, .. } => conference as usize,
            Place::Door { .. } | Place::Health { .. } | Place::Control | Place::Observe => 0,
        });
        Ok(())
    }

    /// Who has connected is let in, or isn't.
    fn let_in(&mut self, listener: usize, number: usize, place: Place) -> Result<(), Fault> {
        let now = self.model.pass();
        let (stage, refusal) = match place {
            Place::Port {
                conference,
                user,
                ..
            } => (Stage::Refused, self.model.comes(number, conference, user)),
            Place::Door { .. } => (Stage::AtDoor(self.model.told.saturating_add(HEADER)), None),
            Place::Health { .. } | Place::Control | Place::Observe => (Stage::Refused, None),
        };
        match (self.server.accepted(listener, number as u16, now), refusal) {
            (Ok(slot), None) => self.put(slot, number, stage)?,
            (Err(found), Some(name)) => {
                return demand(found.name() == name, "another reason is given", number);
            }
            (Ok(_), Some(_)) => return Err(Fault::of("somebody is let in who may not", number)),
            (Err(_), None) => return Err(Fault::of("somebody isn't let in who may", number)),
        }
        if let Place::Health { .. } = place {
            self.model.turn_away(number, None)?;
        }
        Ok(())
    }

    /// A peer's socket is in this slot from now on.
    fn put(&mut self, slot: usize, number: usize, stage: Stage) -> Result<(), Fault> {
        let is_spare = slot <= self.model.world.most.saturating_add(MAX_SPARE);
        demand(is_spare, "slots aren't given again", slot)?;
        self.model.world.put(slot, Holder::Peer(number))?;
        let peer = self.model.world.peer_mut(number)?;
        peer.life = Some(Life {
            slot,
            stage,
            served: 0,
            since: None,
            end: None,
            turns: [0; 4],
            is_readable: false,
            is_told_of_end: false,
            is_blocked: false,
        });
        peer.tells_writable = true;
        peer.tells_readable = peer.unread() != 0 || peer.is_over();
        peer.tells_end = peer.is_over();
        Ok(())
    }

    /// Reads once.
    pub fn read(&mut self, slot: usize) -> Result<(), Fault> {
        let number = self.model.world.peer_in(slot)?;
        self.model.may_read(number)?;
        self.model.note_turn(self.model.group(number));
        let now = self.model.pass();
        let peer = self.model.world.peer_mut(number)?;
        let count = peer.unread().min(MAX_READ);
        if count != 0 {
            self.server.came(slot, peer.take(count), now);
            return self.model.hear(number, count == MAX_READ);
        }
        if peer.has_reset || peer.has_failed {
            self.server.failed(slot, now);
            return self.model.hear_end(number, Departure::Reset);
        }
        if peer.has_ended {
            self.server.ended(slot, now);
            return self.model.hear_end(number, Departure::EndOfStream);
        }
        self.server.nothing(slot);
        self.model.life_mut(number)?.is_readable = false;
        Ok(())
    }

    /// Writes once.
    pub fn write(&mut self, slot: usize) -> Result<(), Fault> {
        let number = self.model.world.peer_in(slot)?;
        let lent = self.server.lent(slot);
        self.model.may_write(number, lent)?;
        self.model.note_turn(self.model.group(number));
        let count = lent.len();
        let now = self.model.pass();
        match self.model.world.peer_mut(number)?.write(count) {
            Some(taken) => {
                self.model.note_taken(number, taken, count)?;
                self.server.took(slot, taken, now);
            }
            None => {
                self.model.note_failure(number)?;
                self.server.unwritten(slot, now);
            }
        }
        Ok(())
    }

    /// Shuts a socket.
    pub fn shut(&mut self, slot: usize) -> Result<(), Fault> {
        let number = self.model.world.peer_in(slot)?;
        self.model.may_shut(number)?;
        self.model.leaves(number)?;
        self.server.shut(slot);
        Ok(())
    }

    /// The server is given an answer that nobody asked for.
    pub fn stray(&mut self, kind: u16, slot: usize) -> Result<(), Fault> {
        if kind == 0 {
            self.server.shut(slot);
            return Ok(());
        }
        let now = self.model.pass();
        let mut is_let_in = false;
        match kind {
            1 => self
                .server
                .came(slot, b"\x20\x0b\0\0\0\0\0\x01\0\x01\0\x0a", now),
            2 => self.server.took(slot, 5, now),
            3 => self.server.ended(slot, now),
            4 => self.server.failed(slot, now),
            5 => self.server.unaccepted(slot, now),
            6 => self.server.unwritten(slot, now),
            _ => is_let_in = self.server.accepted(slot, 0, now).is_ok(),
        }
        demand(!is_let_in, "who nobody accepts is let in", slot)
    }
}
