//! The end of an outbox that takes.

ghost use Rattle.std.specs.Prelude.{◌≡◌};
ghost use Rattle.floor_outbox.specs.Taking.{after_take};

use crate::line::Line;
use crate::mark::ClosedMark;
use crate::rule::{Pass, Takes};
use floor_machine::Parcel;
use std::alloc::{AllocError, Global};
use std::marker::Model;
use std::sync::atomic::Ordering;
use std::sync::{Arc, Wait};

/// What a taker finds.
#[derive(Debug, Drop)]
pub enum Taken {
    /// The parcel at the front.
    Parcel(Parcel),
    /// No parcel, at one moment of the call.
    Empty,
    /// No parcel, at a moment behind the closed mark: what was put before the mark was set is taken.
    Closed,
}

/// The end of an outbox that takes. Contracts see the pair that it belongs to, and what it took.
#[derive(Drop)]
pub struct Taker {
    pub(crate) line: Arc<Line, Global>,
    pub(crate) pass: Pass,
}

impl Model for Taker {
    ghost use Rattle.std.specs.Prelude.{◌≡◌, true, false, []};
    ghost use Rattle.std.specs.Arc.{arc_value};
    ghost use Rattle.crossbeam_queue.specs.SegTies.{IsSegPassOf};
    ghost use Rattle.floor_outbox.specs.Ends.{Taker};
    ghost use Rattle.floor_outbox.specs.Rule.{log};

    ghost Value = { Taker };

    ghost view = { λ s. record {
      pair = (arc_value s.line).queue.web;
      taken = s.pass.me.view.client.taken;
    } };

    ghost invariant = { λ s. IsSegPassOf (arc_value s.line).queue s.pass
        × (s.pass.me.view.client ≡ log false true [] s.pass.me.view.client.taken) };
}

impl Taker {
    /// Takes the parcel at the front, or tells why there is none. Takes no memory.
    pub fn take<R: Wait>(&mut self, rt: &R) -> Taken
        ensures next { self.new ≡ after_take self.old result }
    {
        // The mark first: a parcel that is put and then closed behind is found after it.
        let is_closed = self.line.closed.load(Ordering::SeqCst);
        match self.line.queue.pop_as::<Takes, R>(rt, &mut self.pass) {
            Some(parcel) => Taken::Parcel(parcel),
            None if is_closed => Taken::Closed,
            None => Taken::Empty,
        }
    }

    /// What reads the closed mark where the taker is lent to somebody else.
    pub fn mark(&self) -> Result<ClosedMark, AllocError> {
        Ok(ClosedMark {
            line: Arc::try_clone(&self.line)?,
        })
    }

    /// Sleeps until something was put, or the closed mark was set, since the last such sleep. It
    /// may return without cause.
    pub fn wait<R: Wait>(&mut self, rt: &R)
        ensures { self.new ≡ self.old }
    {
        self.line.parker.park(rt);
    }
}
