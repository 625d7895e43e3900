//! An outbox: its two ends, and both in one hand again.

ghost use Rattle.std.specs.Prelude.{◌≡◌, [], ◌∷◌, ◌++◌, IfNone, IfOk, IfSome};

use crate::line::Line;
use crate::rule::{Drains, Pass, Queue, Roles};
use crate::sender::Sender;
use crate::taker::Taker;
use floor_machine::Parcel;
use std::alloc::{AllocError, Global};
use std::marker::Model;
use std::sync::atomic::AtomicBool;
use std::sync::{Arc, Wait};
use std::thread::Parker;

/// Both ends of an outbox. Contracts see what was put, what was taken and what is held.
#[derive(Drop)]
pub struct Outbox {
    line: Arc<Line, Global>,
    pass: Pass,
}

impl Model for Outbox {
    ghost use Rattle.std.specs.Prelude.{◌≡◌, ◌++◌, true, length, drop};
    ghost use Rattle.std.specs.Arc.{arc_value};
    ghost use Rattle.crossbeam_queue.specs.SegTies.{IsSegPassOf};
    ghost use Rattle.floor_outbox.specs.Ends.{Outbox};
    ghost use Rattle.floor_outbox.specs.Rule.{held_of, log};

    ghost Value = { Outbox };

    ghost view = { λ s. let v = s.pass.me.view.client in record {
      put = v.put;
      taken = v.taken;
      held = held_of v;
    } };

    ghost invariant = { λ s. let v = s.pass.me.view.client in
        IsSegPassOf (arc_value s.line).queue s.pass
        × (v ≡ log true true v.put v.taken)
        × (v.put ≡ v.taken ++ held_of v) };
}

/// The two ends of a new outbox.
pub fn pair(alloc: Global) -> Result<(Sender, Taker), AllocError>
    ensures pair { IfOk result (λ ends. ends.0.pair ≡ ends.1.pair) }
    ensures put { IfOk result (λ ends. ends.0.put ≡ []) }
    ensures taken { IfOk result (λ ends. ends.1.taken ≡ []) }
{
    let (queue, mut first) = Queue::with_rule(alloc)?;
    let second = queue.another::<Roles>(&mut first);
    let line = Arc::new(
        alloc,
        Line {
            queue,
            closed: AtomicBool::new(false),
            parker: Parker::new(),
        },
    )?;
    let theirs = Arc::try_clone(&line)?;
    Ok((
        Sender { line, pass: first },
        Taker {
            line: theirs,
            pass: second,
        },
    ))
}

/// Joins the two ends of one pair.
pub fn rejoin<R: Wait>(rt: &R, sender: Sender, taker: Taker) -> Outbox
    requires { sender.pair ≡ taker.pair }
    ensures put { result.put ≡ sender.put }
    ensures taken { result.taken ≡ taker.taken }
    ensures rule { result.put ≡ result.taken ++ result.held }
{
    let Sender { line, mut pass } = sender;
    let Taker {
        line: _,
        pass: other,
    } = taker;
    line.queue.absorb::<Roles>(&mut pass, other);
    line.queue.len_as::<Drains, R>(rt, &mut pass);
    Outbox { line, pass }
}

impl Outbox {
    /// Takes the parcel at the front, or answers `None` where nothing is held. Takes no memory.
    pub fn pop<R: Wait>(&mut self, rt: &R) -> Option<Parcel>
        ensures put { self.new.put ≡ self.old.put }
        ensures rule { self.new.put ≡ self.new.taken ++ self.new.held }
        ensures took { IfSome result (λ parcel.
            (self.new.taken ≡ self.old.taken ++ parcel ∷ [])
            × (self.old.held ≡ parcel ∷ self.new.held)) }
        ensures none { IfNone result ((self.new ≡ self.old) × (self.old.held ≡ [])) }
    {
        self.line.queue.pop_as::<Drains, R>(rt, &mut self.pass)
    }
}
