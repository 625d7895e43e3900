//! Who connects: what the service's system has of it, and what came to it.

use crate::asking::line_of;
use crate::client::{Asked, Client};
use crate::fault::Fault;
use crate::happening::{ALL, Ask, Does, Message, Way};
use crate::journals::{CONFERENCES, Journals};
use std::alloc::{AllocError, Global};
use std::collections::VecDeque;

/// A line that isn't sent whole yet, and where it ends in what was asked.
#[derive(Clone, Copy, Debug)]
struct Unsent {
    end: usize,
    asked: Asked,
}

/// Who connects.
#[derive(Drop)]
pub struct Peer {
    alloc: Global,
    pub way: Way,
    /// Whether anybody has connected as it.
    pub is_there: bool,
    pub slot: Option<usize>,
    pub is_shut: bool,
    said: Vec<u8>,
    unsent: VecDeque<Unsent>,
    lines: u32,
    transaction: u16,
    sent: usize,
    read: usize,
    room: usize,
    pub has_ended: bool,
    pub has_reset: bool,
    /// Whether it ever took nothing for a while.
    pub has_stalled: bool,
    pub tells_readable: bool,
    pub tells_end: bool,
    pub tells_writable: bool,
    /// What came to a member, and a client as it sees what it is told.
    pub came: Vec<u8>,
    pub client: Client,
}

impl Peer {
    /// Somebody who connects so, or nobody yet.
    pub fn new(alloc: Global, number: usize, way: Way, is_there: bool) -> Peer {
        Peer {
            alloc,
            way,
            is_there,
            slot: None,
            is_shut: false,
            said: Vec::new(alloc),
            unsent: VecDeque::new(alloc),
            lines: 0,
            transaction: 0,
            sent: 0,
            read: 0,
            room: ALL,
            has_ended: false,
            has_reset: false,
            has_stalled: false,
            tells_readable: false,
            tells_end: false,
            tells_writable: false,
            came: Vec::new(alloc),
            client: Client::new(alloc, number, way == Way::Observe),
        }
    }

    pub fn is_client(&self) -> bool {
        match self.way {
            Way::Control | Way::Observe => true,
            Way::Member { .. } => false,
        }
    }

    /// It does something. Each conference has had so many events. Serially a client sends a line at a time.
    pub fn happen(
        &mut self,
        does: Does,
        counts: [u64; CONFERENCES as usize],
        is_serial: bool,
    ) -> Result<(), AllocError> {
        match does {
            Does::Connect(_) | Does::Take(0) => {}
            Does::Ask { ask, is_answered } => self.ask(ask, is_answered)?,
            Does::Say { times, message } => self.say(times, message)?,
            Does::Send(count) if is_serial => self.send(count.min(self.line_len()), counts)?,
            Does::Send(count) => self.send(count, counts)?,
            Does::Take(count) => {
                self.room = self.room.saturating_add(count).min(ALL);
                self.tells_writable = true;
            }
            Does::Stall => {
                self.room = 0;
                self.has_stalled = true;
            }
            Does::End if !self.is_over() => {
                self.has_ended = true;
                self.tell_end();
            }
            Does::End => {}
            Does::Reset => {
                self.has_reset = true;
                self.tell_end();
                self.tells_writable = true;
            }
        }
        Ok(())
    }

    fn tell_end(&mut self) {
        self.tells_readable = true;
        self.tells_end = true;
    }

    pub fn is_over(&self) -> bool {
        self.has_ended || self.has_reset
    }

    /// A client asks for something.
    fn ask(&mut self, ask: Ask, is_answered: bool) -> Result<(), AllocError> {
        if !self.is_client() {
            return Ok(());
        }
        self.lines = self.lines.saturating_add(1);
        let id = if is_answered { Some(self.lines) } else { None };
        self.said
            .extend_from_slice(line_of(self.alloc, ask, id)?.as_bytes())?;
        let has_id = ask != Ask::NoJson;
        self.unsent.push_back(Unsent {
            end: self.said.len(),
            asked: Asked {
                ask,
                id: if has_id { id } else { None },
                is_answered: is_answered || !has_id,
                counts: [0; CONFERENCES as usize],
            },
        })?;
        Ok(())
    }

    /// A member says something (RFC 8855, section 5.1).
    fn say(&mut self, times: u32, message: Message) -> Result<(), AllocError> {
        let Way::Member { conference, user } = self.way else {
            return Ok(());
        };
        for _ in 0..times {
            self.transaction = self.transaction.wrapping_add(1).max(1);
            let (primitive, attribute) = match message {
                Message::Hello => (11, None),
                Message::Request(floor) => (1, Some((0x04, floor))),
                Message::Release(request) => (2, Some((0x06, request))),
                Message::Watch(floor) => (7, Some((0x04, floor))),
            };
            let units = if attribute.is_some() { 1 } else { 0 };
            self.said.extend_from_slice(&[0x20, primitive, 0, units])?;
            self.said.extend_from_slice(&conference.to_be_bytes())?;
            self.said
                .extend_from_slice(&self.transaction.to_be_bytes())?;
            self.said.extend_from_slice(&user.to_be_bytes())?;
            if let Some((kind, number)) = attribute {
                self.said.extend_from_slice(&[kind, 4])?;
                self.said.extend_from_slice(&number.to_be_bytes())?;
            }
        }
        Ok(())
    }

    /// How many bytes it sends at once, serially: none before it is accepted, and a client its next line at most.
    fn line_len(&self) -> usize {
        match self.unsent.front() {
            _ if self.slot.is_none() => 0,
            Some(unsent) => unsent.end.saturating_sub(self.sent),
            None => ALL,
        }
    }

    /// So many bytes of what it has asked or said reach the service's system.
    fn send(
        &mut self,
        count: usize,
        counts: [u64; CONFERENCES as usize],
    ) -> Result<(), AllocError> {
        let count = count.min(self.said.len().saturating_sub(self.sent));
        if count == 0 || self.is_over() {
            return Ok(());
        }
        self.sent = self.sent.saturating_add(count);
        self.tells_readable = true;
        for _ in 0..self.unsent.len() {
            match self.unsent.front().copied() {
                Some(unsent) if unsent.end <= self.sent => {
                    let _sent = self.unsent.pop_front();
                    self.client.ask(Asked {
                        counts,
                        ..unsent.asked
                    })?;
                }
                _ => return Ok(()),
            }
        }
        Ok(())
    }

    /// How many bytes its socket has that weren't read.
    pub fn unread(&self) -> usize {
        self.sent.saturating_sub(self.read)
    }

    /// The next so many bytes that its socket has, which are read now.
    pub fn take(&mut self, count: usize) -> &[u8] {
        let before = self.read;
        self.read = before.saturating_add(count);
        self.said.get(before..self.read).unwrap_or(&[])
    }

    /// How many of so many bytes its socket takes, or nothing where a write fails.
    pub fn write(&mut self, count: usize) -> Option<usize> {
        if self.has_reset {
            return None;
        }
        let taken = count.min(self.room);
        if self.room < ALL {
            self.room = self.room.saturating_sub(taken);
        }
        Some(taken)
    }

    /// Bytes came to it.
    pub fn come(&mut self, bytes: &[u8], journals: &Journals) -> Result<(), Fault> {
        if self.is_client() {
            return self.client.come(bytes, journals);
        }
        self.came.extend_from_slice(bytes)?;
        Ok(())
    }

    /// Whether it takes all that comes, and always did.
    pub fn takes_all(&self) -> bool {
        ALL <= self.room
    }
}
