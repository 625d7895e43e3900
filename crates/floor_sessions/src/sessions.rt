//! The sessions of users, each at its user's place (RFC 8855, sections 6.2 and 8.3).

ghost use Rattle.std.specs.Prelude.{◌≡◌, ◌≤◌, ◌<◌, ◌++◌, ◌∷◌, [], None, length, slice_index_or, OnOk, OnErr};
ghost use Rattle.std.specs.Option.{option_copied};
ghost use Rattle.floor_datagram.specs.SessionView.{terms_of, IsLimit};

use crate::admission::Source;
use crate::seat::Seat;
use crate::seating::{go, way_at};
use crate::way::Way;
use bytes::Bytes;
use floor_datagram::Terms;
use std::alloc::{AllocError, Global};
use std::marker::Model;

/// The sessions of users: one at most for each user, at the user's place.
///
/// `way` tells what becomes of a datagram of the user at a place, and `datagram` does it; `take` takes a
/// session from its place for its other calls, and `put` puts it back. Whatever any of these does, it does at
/// one place alone.
#[derive(Drop)]
pub struct Sessions {
    alloc: Global,
    seats: Vec<Option<Seat>>,
}

impl Model for Sessions {
    ghost use Rattle.std.specs.Prelude.{List, Option};
    ghost use Rattle.floor_sessions.specs.declared.seat.Seat.{Seat};

    ghost Value = { List (Option Seat) };

    ghost view = { λ s. s.seats.items };
}

impl Sessions {
    ghost use Rattle.floor_sessions.specs.Seats as spec;

    /// No users. Takes no memory.
    pub fn new(alloc: Global) -> Sessions
        ensures value { result ≡ [] }
    {
        Sessions {
            alloc,
            seats: Vec::new(alloc),
        }
    }

    /// Adds a place behind the others, for a user who has no session.
    pub fn add(&mut self) -> Result<(), AllocError>
        ensures next { OnOk result (self.new ≡ self.old ++ None ∷ []) }
        ensures left { OnErr result (self.new ≡ self.old) }
    {
        self.seats.push(None)?;
        Ok(())
    }

    /// How many places there are.
    pub fn len(&self) -> usize
        ensures value { result ≡ length self.now }
    {
        self.seats.len()
    }

    /// The session at a place.
    pub fn seat(&self, place: usize) -> Option<&Seat>
        requires place { place < length self.now }
        ensures value { option_copied result ≡ slice_index_or self.now place None }
    {
        self.seats[place].as_ref()
    }

    /// Takes the session from a place, which has none until one is put there.
    pub fn take(&mut self, place: usize) -> Option<Seat>
        requires place { place < length self.old }
        ensures value { result ≡ slice_index_or self.old place None }
        ensures next { slice_index_or self.new place None ≡ None }
        ensures others { spec.IsAlone place self.old self.new }
        ensures len { length self.new ≡ length self.old }
    {
        let taken = &mut self.seats[place];
        taken.take()
    }

    /// Puts a session at a place, or none.
    pub fn put(&mut self, place: usize, seat: Option<Seat>)
        requires place { place < length self.old }
        ensures next { slice_index_or self.new place None ≡ seat }
        ensures others { spec.IsAlone place self.old self.new }
        ensures len { length self.new ≡ length self.old }
    {
        self.seats[place] = seat;
    }

    /// What becomes of a datagram of the user at this place that has a whole header.
    pub fn way(&self, place: usize, from: Source, datagram: &[u8], now: u64) -> Way
        requires place { place < length self.now }
        requires long { 12 ≤ length datagram.now }
        ensures value { result
            ≡ spec.way_at (slice_index_or self.now place None) from now datagram.now }
    {
        let seat = &self.seats[place];
        way_at(seat, from, datagram, now)
    }

    /// Does what becomes of a datagram of the user at this place. Where a session ends by it, as it moves or
    /// begins anew, the caller ends its stream as that of a peer that is lost.
    pub fn datagram(
        &mut self,
        place: usize,
        way: Way,
        terms: Terms,
        from: Source,
        datagram: &[u8],
        now: u64,
        up: &mut Vec<u8>,
        down: &mut Vec<Bytes>,
    ) -> Result<(), AllocError>
        requires place { place < length self.old }
        requires long { 12 ≤ length datagram.now }
        requires limit { IsLimit terms }
        ensures took { OnOk result (spec.Happened
            (spec.goes way (slice_index_or self.old place None) (terms_of terms) from
            (length up.old.items) now datagram.now) (slice_index_or self.new place None)
            up.old.items up.new.items down.old.items down.new.items) }
        ensures others { spec.IsAlone place self.old self.new }
        ensures left { OnErr result (up.new.items ≡ up.old.items) }
    {
        let alloc = self.alloc;
        let seat = &mut self.seats[place];
        go(alloc, seat, way, terms, from, datagram, now, up, down)
    }
}
