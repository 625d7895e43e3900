//! A machine over a list of events, one after another.

ghost use Rattle.std.specs.Prelude.{◌+◌, ◌<◌, IfErr, OnOk, length};
ghost use Rattle.floor_machine.specs.Machine.{AppliedAll, IsStopped, LeftAt};

use crate::event::Event;
use crate::machine::{Machine, Refusal};
use crate::parcel::Parcel;

/// Where a run has stopped, and why.
#[derive(Clone, Copy, Debug, PartialEq, Eq)]
pub struct Stopped {
    /// How many events were taken before the refused one.
    pub done: usize,
    /// Why that one was refused.
    pub refusal: Refusal,
}

impl Machine {
    /// Takes these events, one after another, and appends what they tell the members to `out`. It
    /// stops at the first that is refused, after those before it.
    pub fn run(&mut self, events: &[Event], out: &mut Vec<Parcel>) -> Result<(), Stopped>
        requires { length self.old.conference.members + length events.now < 4294967296 }
        ensures took { OnOk result
            (AppliedAll self.old events.now self.new out.old.items out.new.items) }
        ensures refused { IfErr result (IsStopped self.old events.now) }
        ensures left { IfErr result
            (LeftAt self.old events.now self.new out.old.items out.new.items) }
    {
        let mut changed = Vec::new(*out.allocator());
        for (done, event) in events.iter().enumerate() {
            match self.apply(event, out, &mut changed) {
                Ok(_) => {}
                Err(refusal) => return Err(Stopped { done, refusal }),
            }
        }
        Ok(())
    }
}
