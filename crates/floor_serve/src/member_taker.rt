//! What takes the parcels of a member.

ghost use Rattle.std.specs.Prelude.{◌≡◌};
ghost use Rattle.floor_outbox.specs.Taking.{after_take};

use crate::desk::Desk;
use floor_outbox::{ClosedMark, Taken, Taker};
use floor_room::RoomRefusal;
use std::alloc::AllocError;
use std::marker::Model;
use std::sync::Wait;

/// What takes the parcels of a member, in whichever thread: the taker of its outbox, its number, and a
/// desk of its conference. [`Desk::join`] alone makes one, so that what is acknowledged is the member's
/// own.
#[derive(Drop)]
pub struct MemberTaker {
    pub(crate) desk: Desk,
    pub(crate) n: u32,
    pub(crate) taker: Taker,
}

impl Model for MemberTaker {
    ghost use Rattle.floor_serve.specs.Seat.{MemberTaker};

    ghost Value = { MemberTaker };

    ghost view = { λ m. record { conference = m.desk.conference; n = m.n; taker = m.taker } };
}

impl MemberTaker {
    /// The number of the conference. Takes no memory.
    pub fn conference(&self) -> u32
        ensures value { result ≡ self.now.conference }
    {
        self.desk.conference()
    }

    /// The number of the member. Takes no memory.
    pub fn n(&self) -> u32
        ensures value { result ≡ self.now.n }
    {
        self.n
    }

    /// Takes the parcel at the front, or tells why there is none. Takes no memory.
    pub fn take<R: Wait>(&mut self, rt: &R) -> Taken
        ensures next { self.new ≡ record self.old { taker = after_take self.old.taker result } }
    {
        self.taker.take(rt)
    }

    /// Sleeps until something was put, or the closed mark was set, since the last such sleep. It may
    /// return without cause.
    pub fn wait<R: Wait>(&mut self, rt: &R)
        ensures next { self.new ≡ self.old }
    {
        self.taker.wait(rt)
    }

    /// What reads the closed mark where this is lent to somebody else.
    pub fn mark(&self) -> Result<ClosedMark, AllocError> {
        self.taker.mark()
    }

    /// Takes it that so many of the member's parcels were brought to their end. Refused as
    /// [`crate::Booth::took`]: `Broken`, `Ended`, `JournalFull`, `NoMember`, `BadCount`.
    pub fn acknowledge<R: Wait>(&self, rt: &R, k: u32) -> Result<(), RoomRefusal> {
        self.desk.took(rt, self.n, k)
    }
}
