//! Who connects: what the server's system has of it, and what the server has to make of its socket.

use crate::happening::{ALL, Does, Message};
use crate::saying::{Binding, say};
use floor_turn::{Departure, NamedBy, Peer as Named, Place, Who};
use std::alloc::{AllocError, Global};

/// What a socket is.
#[derive(Clone, Copy, Debug, PartialEq, Eq)]
pub enum Stage {
    /// Somebody at a door, who has until then to say who it is.
    AtDoor(u64),
    Member(Who),
    /// Somebody who isn't let in.
    Refused,
}

/// A socket, from its accept until it was shut.
#[derive(Clone, Copy, Debug)]
pub struct Life {
    pub slot: usize,
    pub stage: Stage,
    /// How many of the bytes that were read of it are its header's or messages in the journal.
    pub served: usize,
    /// Since when it is to be shut down.
    pub since: Option<u64>,
    /// How its reading ended.
    pub end: Option<Departure>,
    /// How many turns each conference had had when it began to wait for its own.
    pub turns: [u64; 4],
    /// Whether the poll told that it may be read, and no read found nothing since; and whether it told of the end.
    pub is_readable: bool,
    pub is_told_of_end: bool,
    /// Whether it took less than it was lent, and the poll told of nothing since.
    pub is_blocked: bool,
}

/// Who connects: what it has said, what of it reached the server's system, and how much it takes.
#[derive(Drop)]
pub struct Peer {
    alloc: Global,
    place: Place,
    /// Whether anybody has connected as it.
    pub is_there: bool,
    /// In whose name it speaks: the user of its port, or whom its last header names.
    pub binding: Binding,
    said: Vec<u8>,
    /// How many bytes of what it has said have reached the server's system, and how many of them the server has read.
    sent: usize,
    read: usize,
    /// How many bytes it takes yet.
    room: usize,
    pub has_ended: bool,
    pub has_reset: bool,
    is_broken: bool,
    /// Whether a write to it has failed.
    pub has_failed: bool,
    /// What the poll has to tell of its socket: that something may be read, that its stream ends, that it takes bytes.
    pub tells_readable: bool,
    pub tells_end: bool,
    pub tells_writable: bool,
    /// Its socket, while there is one.
    pub life: Option<Life>,
}

impl Peer {
    /// Somebody who connects there, or nobody yet.
    pub fn new(alloc: Global, place: Place, is_there: bool) -> Peer {
        let mut binding = Binding {
            named_by: NamedBy::Certificate,
            conference: 1,
            user: 10,
            transaction: 0,
        };
        match place {
            Place::Port {
                conference,
                user,
                ..
            } => {
                binding.conference = conference;
                binding.user = user;
            }
            Place::Door { named_by, .. } => binding.named_by = named_by,
            Place::Health { .. } | Place::Control | Place::Observe => {}
        }
        Peer {
            alloc,
            place,
            is_there,
            binding,
            said: Vec::new(alloc),
            sent: 0,
            read: 0,
            room: ALL,
            has_ended: false,
            has_reset: false,
            is_broken: false,
            has_failed: false,
            tells_readable: false,
            tells_end: false,
            tells_writable: false,
            life: None,
        }
    }

    /// The peer as the log names it, whose number stands for its port.
    pub fn named(&self, number: usize) -> Named {
        Named {
            place: self.place,
            port: number as u16,
        }
    }

    /// It does something.
    pub fn happen(&mut self, does: Does) -> Result<(), AllocError> {
        match does {
            Does::Connect(_) | Does::Take(0) => {}
            Does::Say { times, message } => self.say(message, times)?,
            Does::Send(count) => {
                let count = count.min(self.said.len().saturating_sub(self.sent));
                if count != 0 && !self.is_over() {
                    self.sent = self.sent.saturating_add(count);
                    self.tells_readable = true;
                }
            }
            Does::End => self.end(),
            Does::Reset => {
                self.has_reset = true;
                self.tell_end();
                self.tells_writable = true;
            }
            Does::Break => self.is_broken = true,
            Does::Take(count) => {
                self.room = self.room.saturating_add(count).min(ALL);
                self.tells_writable = true;
            }
            Does::Stall => self.room = 0,
        }
        Ok(())
    }

    fn say(&mut self, message: Message, times: u32) -> Result<(), AllocError> {
        for _ in 0..times {
            if let Message::Header { conference, user } = message {
                self.binding.conference = conference;
                self.binding.user = user;
            }
            self.binding.transaction = self.binding.transaction.wrapping_add(1).max(1);
            say(self.alloc, &mut self.said, self.binding, message)?;
        }
        Ok(())
    }

    /// Its stream ends.
    pub fn end(&mut self) {
        if !self.is_over() {
            self.has_ended = true;
            self.tell_end();
        }
    }

    /// The poll tells that its stream ends.
    fn tell_end(&mut self) {
        self.tells_readable = true;
        self.tells_end = true;
    }

    /// Whether it sends nothing more.
    pub fn is_over(&self) -> bool {
        self.has_ended || self.has_reset
    }

    /// How many bytes its socket has that weren't read.
    pub fn unread(&self) -> usize {
        self.sent.saturating_sub(self.read)
    }

    /// The next so many bytes that its socket has, which are read now.
    pub fn take(&mut self, count: usize) -> &[u8] {
        let before = self.read;
        self.read = before.saturating_add(count);
        self.said.get(before..self.read).unwrap_or(&[])
    }

    /// All that the server has read.
    pub fn given(&self) -> &[u8] {
        self.said.get(..self.read).unwrap_or(&[])
    }

    /// What was read of it and isn't served.
    pub fn unserved(&self, life: &Life) -> &[u8] {
        self.given().get(life.served..).unwrap_or(&[])
    }

    /// Whether a message of a member was read whole and isn't served (RFC 8855, section 5.1).
    pub fn waits(&self, life: &Life) -> bool {
        match (life.stage, self.unserved(life)) {
            (Stage::Member(_), [_, _, high, low, ..]) => {
                let units = usize::from(u16::from_be_bytes([*high, *low]));
                12 + 4 * units <= self.unserved(life).len()
            }
            _ => false,
        }
    }

    /// A write of so many bytes: how many its socket takes, or nothing where it fails.
    pub fn write(&mut self, count: usize) -> Option<usize> {
        if self.is_broken || self.has_reset {
            self.has_failed = true;
            return None;
        }
        let taken = count.min(self.room);
        if self.room < ALL {
            self.room = self.room.saturating_sub(taken);
        }
        Some(taken)
    }
}
