//! The administrator says a message for a user: it is what it would be from a live member of the user, but
//! no member sends it, and none is told the answer.

ghost use Rattle.std.specs.Prelude.{◌≡◌, [], IfErr, IfOk, None, OnErr, OnOk};
ghost use Rattle.floor_machine.specs.declared.event.Event.TheVariants.{Say};
ghost use Rattle.floor_machine.specs.Machine.{Applied, IsRefusedBy, Left, infos_changed, say_refusal};
ghost use Rattle.floor_machine.specs.Reply.{said_reply};
ghost use Rattle.floor_machine.specs.steps.Frame.{IsTried, done};

use crate::decision::Sender;
use crate::machine::{Machine, Refusal};
use crate::parcel::Parcel;
use floor_message::{Head, SharedInfo};
use floor_wire::{Frame, SharedFrame};

impl Machine {
    /// Takes a message that the administrator says for a user, and gives what answers it, which no
    /// member is told; appends what it tells the members to `out`, by ascending member, and puts what is
    /// shown of the floor requests that it changed into `changed`. A message that is neither a
    /// FloorRequest nor a FloorRelease nor a ChairAction is answered by error code 3. Refused are, in
    /// this order, `Broken`, `Ended` and `NoUser`; after a refusal nothing has changed, but that
    /// `Memory`, which comes last, leaves the machine broken.
    pub fn say(
        &mut self,
        user: u16,
        frame: &Frame,
        out: &mut Vec<Parcel>,
        changed: &mut Vec<SharedInfo>,
    ) -> Result<Option<SharedFrame>, Refusal>
        ensures took { OnOk result
            (Applied self.old (Say user frame.now) self.new out.old.items out.new.items) }
        ensures reply { IfOk result (λ reply. reply
            ≡ said_reply self.old.conference (Say user frame.now)) }
        ensures changed { OnOk result
            (changed.new.items ≡ infos_changed self.old.conference (Say user frame.now)) }
        ensures unchanged { OnErr result (changed.new.items ≡ []) }
        ensures refused { IsRefusedBy (say_refusal self.old user) result }
        ensures left { IfErr result
            (Left self.old (Say user frame.now) self.new out.old.items out.new.items) }
    {
        changed.clear();
        match self.say_refusal(user) {
            Some(refusal) => Err(refusal),
            None => self.take_said(user, frame, out, changed),
        }
    }

    /// Takes a message that may be said for this user.
    fn take_said(
        &mut self,
        user: u16,
        frame: &Frame,
        out: &mut Vec<Parcel>,
        changed: &mut Vec<SharedInfo>,
    ) -> Result<Option<SharedFrame>, Refusal>
        requires free { None ≡ say_refusal self.old user }
        requires empty { changed.old.items ≡ [] }
        ensures tried { IsTried self.old (Say user frame.now) self.new out.old.items
            out.new.items changed.new.items (done result) }
        ensures said { IfOk result (λ said. said
            ≡ said_reply self.old.conference (Say user frame.now)) }
    {
        // A frame is one message, which makes the event a lawful one.
        let _bytes = frame.bytes();
        let sender = Sender {
            n: None,
            user,
            head: Head::response(frame),
        };
        self.take_sent(sender, frame, out, changed)
    }

    /// Why nothing is said for this user.
    fn say_refusal(&self, user: u16) -> Option<Refusal>
        ensures { result ≡ say_refusal self.now user }
    {
        let refusal = if self.state.config.is_user(user) {
            None
        } else {
            Some(Refusal::NoUser)
        };
        self.refusal_of(refusal)
    }
}
