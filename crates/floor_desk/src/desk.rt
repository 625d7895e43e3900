//! The clients, and what is known of the conferences besides their rooms. The server of members isn't among it: what is
//! here is read of it, and changes nothing there.

ghost use Rattle.std.specs.Prelude.{◌≡◌};

use crate::act::Act;
use crate::callers::Callers;
use crate::drawing::Drawing;
use crate::meeting::Meeting;
use floor_clients::Workspace;
use floor_loop::Loop;
use floor_rpc::{About, ErrorName, Text};
use floor_shown::{Refused, time_of};
use std::alloc::{AllocError, Global};
use std::collections::{BTreeMap, VecDeque};

/// How late it is.
#[derive(Clone, Copy, Debug, PartialEq, Eq)]
pub struct Now {
    /// In microseconds of a clock that doesn't go back.
    pub micros: u64,
    /// The time of day, in milliseconds since 1970-01-01T00:00:00Z, for what is told.
    pub unix_millis: u64,
}

/// What is to be done for a client, by the system.
#[derive(Clone, Copy, Debug, PartialEq, Eq)]
pub enum Wanted {
    /// The text under this number is to be read as a configuration.
    Configuration(u64),
    /// The ports under this number are to be listened on.
    Ports(u64),
    /// How much memory the process has.
    Figures,
    /// The log is told what a client had done.
    Log(Act),
}

/// The clients, and what is known of the conferences besides their rooms.
#[derive(Drop)]
pub struct Desk {
    pub alloc: Global,
    pub callers: Callers,
    pub work: Workspace,
    pub meetings: BTreeMap<u32, Meeting>,
    pub drawing: Drawing,
    /// The sockets of clients that lack events and may be told some.
    pub lacking: VecDeque<usize>,
    /// Whether it is their turn next.
    pub is_turn_of_lacking: bool,
    /// What is to be done for clients, by the system.
    pub wanted: VecDeque<Wanted>,
    /// How many conferences are open.
    pub open: u64,
    pub is_draining: bool,
    /// By when a stop that was asked for is answered at latest, in microseconds.
    pub stop: Option<u64>,
    pub has_stopped: bool,
    /// Whether something was told to a client since this was looked at.
    pub has_told: bool,
    /// The user for whom something was said by the request that is carried out.
    pub user: Option<u16>,
    /// How many members there ever were, and how many events.
    pub joins: u64,
    pub events: u64,
    /// How often texts were to be read, or ports to be listened on.
    pub asked: u64,
    pub version: Text,
    pub since: Text,
    pub now: Now,
}

impl Desk {
    /// No client, and no conference.
    pub fn new(alloc: Global, seed: [u8; 32], version: Text, now: Now) -> Result<Desk, AllocError> {
        let since = match time_of(alloc, now.unix_millis)? {
            Some(since) => since,
            None => Text::from_string(String::new(alloc)),
        };
        Ok(Desk {
            alloc,
            callers: Callers::new(alloc),
            work: Workspace::new(alloc),
            meetings: BTreeMap::new(alloc),
            drawing: Drawing::new(seed),
            lacking: VecDeque::new(alloc),
            is_turn_of_lacking: false,
            wanted: VecDeque::new(alloc),
            open: 0,
            is_draining: false,
            stop: None,
            has_stopped: false,
            has_told: false,
            user: None,
            joins: 0,
            events: 0,
            asked: 0,
            version,
            since,
            now,
        })
    }

    /// It is so late, unless it was later before.
    pub fn pass(&mut self, now: Now)
        ensures callers { self.new.callers ≡ self.old.callers }
        ensures draining { self.new.is_draining ≡ self.old.is_draining }
    {
        self.now = Now {
            micros: self.now.micros.max(now.micros),
            unix_millis: self.now.unix_millis.max(now.unix_millis),
        };
    }

    /// A number for what the system is asked.
    pub fn next_asked(&mut self) -> u64
        ensures callers { self.new.callers ≡ self.old.callers }
        ensures draining { self.new.is_draining ≡ self.old.is_draining }
    {
        self.asked = self.asked.saturating_add(1);
        self.asked
    }

    /// What is known of a conference. Refused as the hub's `status` is.
    pub fn known(&self, hub: &Loop, conference: u32) -> Result<&Meeting, Refused> {
        match hub.status(conference) {
            Ok(_status) => {}
            Err(refusal) => return Err(Refused::of_conference(refusal, conference)),
        }
        match self.meetings.get(&conference) {
            Some(meeting) => Ok(meeting),
            None => Err(Refused::of(ErrorName::NoConference, About::Conference(conference))),
        }
    }

    /// The log is told what a client had done, unless memory is refused for it.
    pub fn log(&mut self, act: Act)
        ensures callers { self.new.callers ≡ self.old.callers }
    {
        let _told = self.wanted.push_back(Wanted::Log(act));
    }
}
