//! What is known of a conference besides its room.

use crate::times::{RequestTimes, Times, note_requests, times_in};
use crate::words::Words;
use floor_loop::{Event, SharedInfo};
use std::alloc::{AllocError, Global};

/// What is known of a conference besides its room: its words, the ports of users that were added, when its events were
/// taken, and when its ongoing floor requests were made and granted.
#[derive(Drop)]
pub struct Known {
    pub words: Words,
    /// The users that were added with ports, each with its port.
    pub ports: Vec<(u16, u16)>,
    /// Whether its events are kept in a file.
    pub is_kept: bool,
    noted: usize,
    times: Times,
    requests: Vec<RequestTimes>,
}

impl Known {
    /// A conference that is opened, with these words. Takes no memory.
    pub fn new(alloc: Global, words: Words) -> Known {
        Known {
            words,
            ports: Vec::new(alloc),
            is_kept: false,
            noted: 0,
            times: Times::new(alloc),
            requests: Vec::new(alloc),
        }
    }

    /// How many events of its journal were noted.
    pub fn noted(&self) -> usize {
        self.noted
    }

    /// The place of its next event.
    pub fn next(&self) -> u64 {
        (self.noted as u64).saturating_add(1)
    }

    /// The port of a user who was added.
    pub(crate) fn port_of(&self, user: u16) -> Option<u16> {
        match self.ports.iter().find(|port| port.0 == user) {
            Some(port) => Some(port.1),
            None => None,
        }
    }

    /// Notes the events behind those that were noted, which were taken at this time, in milliseconds since
    /// 1970-01-01T00:00:00Z, and how the ongoing floor requests stand behind them. Where memory is refused less is known of
    /// their times.
    pub fn note(&mut self, events: &[Event], shown: &[SharedInfo], unix_millis: u64) {
        let next = self.next();
        self.times.note(next, unix_millis);
        let time = self.times.at(u64::MAX);
        let _noted = note_requests(&mut self.requests, shown, time);
        self.noted = events.len();
    }

    /// When the event at a place was taken, where that is known.
    pub fn time_at(&self, place: u64) -> Option<u64> {
        self.times.at(place)
    }

    /// When the ongoing floor requests were made and granted.
    pub(crate) fn times(&self, alloc: Global) -> Result<Vec<RequestTimes>, AllocError> {
        Vec::from_slice(alloc, &self.requests)
    }

    /// When a floor request was made and granted.
    pub(crate) fn times_of(&self, request: u16) -> RequestTimes {
        times_in(&self.requests, request)
    }
}
