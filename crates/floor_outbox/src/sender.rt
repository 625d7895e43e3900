//! The end of an outbox that puts.

ghost use Rattle.std.specs.Prelude.{◌≡◌, [], ◌∷◌, ◌++◌, OnOk, IfErr, IfOk};

use crate::line::Line;
use crate::rule::{Pass, Puts};
use crate::waker::Waker;
use floor_machine::Parcel;
use std::alloc::{AllocError, Global};
use std::marker::Model;
use std::sync::atomic::Ordering;
use std::sync::{Arc, Wait};

/// The end of an outbox that puts. Contracts see the pair that it belongs to, and what it put.
#[derive(Drop)]
pub struct Sender {
    pub(crate) line: Arc<Line, Global>,
    pub(crate) pass: Pass,
}

impl Model for Sender {
    ghost use Rattle.std.specs.Prelude.{◌≡◌, true, false, []};
    ghost use Rattle.std.specs.Arc.{arc_value};
    ghost use Rattle.crossbeam_queue.specs.SegTies.{IsSegPassOf};
    ghost use Rattle.floor_outbox.specs.Ends.{Sender};
    ghost use Rattle.floor_outbox.specs.Rule.{log};

    ghost Value = { Sender };

    ghost view = { λ s. record {
      pair = (arc_value s.line).queue.web;
      put = s.pass.me.view.client.put;
    } };

    ghost invariant = { λ s. IsSegPassOf (arc_value s.line).queue s.pass
        × (s.pass.me.view.client ≡ log true false s.pass.me.view.client.put []) };
}

impl Sender {
    /// Puts a parcel behind those that were put, and wakes the taker. The parcel comes back where
    /// memory is refused, and was not put then.
    pub fn put<R: Wait>(&mut self, rt: &R, parcel: Parcel) -> Result<(), Parcel>
        ensures took { OnOk result (self.new
            ≡ record self.old { put = self.old.put ++ parcel ∷ [] }) }
        ensures left { IfErr result (λ back. (back ≡ parcel) × (self.new ≡ self.old)) }
    {
        let answer = self.put_asleep(rt, parcel);
        self.line.parker.unpark();
        answer
    }

    /// The same, but the taker sleeps on: whoever puts so wakes it by a [`Waker`] later. The parcel comes
    /// back where memory is refused, and was not put then.
    pub fn put_asleep<R: Wait>(&mut self, rt: &R, parcel: Parcel) -> Result<(), Parcel>
        ensures took { OnOk result (self.new
            ≡ record self.old { put = self.old.put ++ parcel ∷ [] }) }
        ensures left { IfErr result (λ back. (back ≡ parcel) × (self.new ≡ self.old)) }
    {
        self.line
            .queue
            .push_as::<Puts, R>(rt, &mut self.pass, parcel)
    }

    /// What wakes the taker.
    pub fn waker(&self) -> Result<Waker, AllocError>
        ensures pair { IfOk result (λ waker. waker ≡ self.now.pair) }
    {
        Ok(Waker {
            line: Arc::try_clone(&self.line)?,
        })
    }

    /// Sets the pair's closed mark, for good, and wakes the taker. Takes no memory.
    pub fn close(&self) {
        // The mark first: whoever wakes finds it.
        self.line.closed.store(true, Ordering::SeqCst);
        self.line.parker.unpark();
    }
}
