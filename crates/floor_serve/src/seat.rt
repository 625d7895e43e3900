//! What a member keeps of what it sent.

ghost use Rattle.std.specs.Prelude.{◌≡◌, []};

use floor_room::{Frame, Place};
use std::alloc::Global;
use std::marker::Model;

/// A message that was taken, and its place in the journal.
#[derive(Debug, Drop)]
pub struct Sent {
    /// Its place, from 1.
    pub place: Place,
    /// Its bytes, in the journal's own memory.
    pub bytes: Frame,
}

/// The place of a message that was taken.
#[derive(Clone, Copy, Debug, PartialEq, Eq)]
pub struct Receipt {
    /// Its place, from 1.
    pub place: Place,
}

/// A member of a conference, with the messages that were taken of it.
#[derive(Debug, Drop)]
pub struct Seat {
    conference: u32,
    n: u32,
    pub(crate) sent: Vec<Sent>,
}

impl Model for Seat {
    ghost use Rattle.floor_serve.specs.Seat.{Seat};

    ghost Value = { Seat };

    ghost view = { λ s. record { conference = s.conference; n = s.n; sent = s.sent.items } };
}

impl Seat {
    /// The seat of a member that joins.
    pub(crate) fn new(alloc: Global, conference: u32, n: u32) -> Seat
        ensures { result ≡ record { conference = conference; n = n; sent = [] } }
    {
        Seat {
            conference,
            n,
            sent: Vec::new(alloc),
        }
    }

    /// The number of the conference.
    pub fn conference(&self) -> u32
        ensures { result ≡ self.now.conference }
    {
        self.conference
    }

    /// The number of the member.
    pub fn n(&self) -> u32
        ensures { result ≡ self.now.n }
    {
        self.n
    }

    /// What was taken of it, in order.
    pub fn sent(&self) -> &[Sent]
        ensures { result.now ≡ self.now.sent }
    {
        self.sent.as_slice()
    }
}
