//! What the administrator of a conference does: each act has its refusal, and the decision that it comes
//! to.

ghost use Rattle.std.specs.Prelude.{◌≡◌, [], IfErr, OnErr, OnOk};
ghost use Rattle.floor_machine.specs.declared.act.Act.TheVariants as Act;
ghost use Rattle.floor_machine.specs.declared.event.Event.TheVariants.{AddFloor, AddUser, Close, Revoke, SetChair};
ghost use Rattle.floor_machine.specs.Machine.{Applied, IsRefusedBy, Left, act_refusal, event_of_act, fault_refusal, infos_changed, refusal_of_fault};
ghost use Rattle.floor_machine.specs.steps.Frame.{IsTried};

use crate::act::Act;
use crate::added::AddedUser;
use crate::decision::{Change, Decision, EndedBy};
use crate::machine::{Machine, Refusal};
use crate::parcel::Parcel;
use floor_config::{ConfigFault, Floor, User};
use floor_message::SharedInfo;

impl Machine {
    /// Does what the administrator does, appends what that tells the members to `out`, by ascending
    /// member, and puts what is shown of the floor requests that it changed into `changed`: a Close, a
    /// new user and a new floor tell nobody anything, and put nothing. Refused are, in this
    /// order, `Broken`, `Ended`, then for a Revoke `NoRequest`, for a new user `OutOfRange`,
    /// `DoubleUser`, for a new floor `OutOfRange`, `DoubleFloor`, `UnknownChair`, for a chair `NoFloor`,
    /// `UnknownChair`; `Memory` comes last. After a refusal nothing has changed, but that `Memory`
    /// leaves the machine broken.
    pub fn admin(
        &mut self,
        act: Act,
        out: &mut Vec<Parcel>,
        changed: &mut Vec<SharedInfo>,
    ) -> Result<(), Refusal>
        ensures took { OnOk result
            (Applied self.old (event_of_act act) self.new out.old.items out.new.items) }
        ensures changed { OnOk result
            (changed.new.items ≡ infos_changed self.old.conference (event_of_act act)) }
        ensures unchanged { OnErr result (changed.new.items ≡ []) }
        ensures refused { IsRefusedBy (act_refusal self.old act) result }
        ensures left { IfErr result
            (Left self.old (event_of_act act) self.new out.old.items out.new.items) }
    {
        changed.clear();
        match act {
            Act::Revoke(request) => self.revoke(request, out, changed),
            Act::Close => self.close(out, changed),
            Act::AddUser(user) => self.add_user(&user, out, changed),
            Act::AddFloor(floor) => self.add_floor(floor, out, changed),
            Act::SetChair(floor, chair) => self.set_chair(floor, chair, out, changed),
        }
    }

    /// Takes away the floors of the ongoing request with this number, or denies it where it doesn't hold
    /// them.
    pub(crate) fn revoke(
        &mut self,
        request: u16,
        out: &mut Vec<Parcel>,
        changed: &mut Vec<SharedInfo>,
    ) -> Result<(), Refusal>
        requires { changed.old.items ≡ [] }
        ensures tried { IsTried self.old (Revoke request) self.new out.old.items out.new.items
            changed.new.items result }
    {
        match self.request_refusal(request) {
            Some(refusal) => Err(refusal),
            None => {
                let change = Change::End(request, EndedBy::Chair, None);
                self.take(None, Decision::to(change), out, changed)
            }
        }
    }

    /// Ends the conference.
    pub(crate) fn close(
        &mut self,
        out: &mut Vec<Parcel>,
        changed: &mut Vec<SharedInfo>,
    ) -> Result<(), Refusal>
        requires { changed.old.items ≡ [] }
        ensures tried { IsTried self.old Close self.new out.old.items out.new.items
            changed.new.items result }
    {
        match self.refusal_of(None) {
            Some(refusal) => Err(refusal),
            None => self.take(None, Decision::to(Change::Close), out, changed),
        }
    }

    /// Adds a user, of whom a copy is kept.
    pub(crate) fn add_user(
        &mut self,
        user: &AddedUser,
        out: &mut Vec<Parcel>,
        changed: &mut Vec<SharedInfo>,
    ) -> Result<(), Refusal>
        requires { changed.old.items ≡ [] }
        ensures tried { IsTried self.old (AddUser user.now) self.new out.old.items out.new.items
            changed.new.items result }
    {
        match self.user_refusal(user.as_user()) {
            Some(refusal) => Err(refusal),
            None => match user.copy(self.allocator()) {
                Ok(user) => self.take(None, Decision::to(Change::AddUser(user)), out, changed),
                Err(refused) => Err(self.break_off(refused)),
            },
        }
    }

    /// Adds a floor.
    pub(crate) fn add_floor(
        &mut self,
        floor: Floor,
        out: &mut Vec<Parcel>,
        changed: &mut Vec<SharedInfo>,
    ) -> Result<(), Refusal>
        requires { changed.old.items ≡ [] }
        ensures tried { IsTried self.old (AddFloor floor) self.new out.old.items out.new.items
            changed.new.items result }
    {
        match self.floor_refusal(&floor) {
            Some(refusal) => Err(refusal),
            None => self.take(None, Decision::to(Change::AddFloor(floor)), out, changed),
        }
    }

    /// Gives a floor another chair, or none.
    pub(crate) fn set_chair(
        &mut self,
        floor: u16,
        chair: Option<u16>,
        out: &mut Vec<Parcel>,
        changed: &mut Vec<SharedInfo>,
    ) -> Result<(), Refusal>
        requires { changed.old.items ≡ [] }
        ensures tried { IsTried self.old (SetChair floor chair) self.new out.old.items
            out.new.items changed.new.items result }
    {
        match self.chair_refusal(floor, chair) {
            Some(refusal) => Err(refusal),
            None => self.take(
                None,
                Decision::to(Change::SetChair(floor, chair)),
                out,
                changed,
            ),
        }
    }

    /// Why the request is not revoked.
    fn request_refusal(&self, request: u16) -> Option<Refusal>
        ensures { result ≡ act_refusal self.now (Act.Revoke request) }
    {
        let refusal = if self.state.has_request(request) {
            None
        } else {
            Some(Refusal::NoRequest)
        };
        self.refusal_of(refusal)
    }

    /// Why the user is not added.
    fn user_refusal(&self, user: &User) -> Option<Refusal>
        ensures { result ≡ act_refusal self.now (Act.AddUser user.now) }
    {
        self.fault_refusal(self.state.config.user_fault(user))
    }

    /// Why the floor is not added.
    fn floor_refusal(&self, floor: &Floor) -> Option<Refusal>
        ensures { result ≡ act_refusal self.now (Act.AddFloor floor.now) }
    {
        self.fault_refusal(self.state.config.floor_fault(floor))
    }

    /// Why the floor doesn't get this chair.
    fn chair_refusal(&self, floor: u16, chair: Option<u16>) -> Option<Refusal>
        ensures { result ≡ act_refusal self.now (Act.SetChair floor chair) }
    {
        self.fault_refusal(self.state.config.chair_fault(floor, chair))
    }

    /// Why the configuration doesn't change so, for which this fault stands.
    fn fault_refusal(&self, fault: Option<ConfigFault>) -> Option<Refusal>
        ensures { result ≡ fault_refusal self.now fault }
    {
        let refusal = match fault {
            Some(fault) => Some(refusal_of_fault(fault)),
            None => None,
        };
        self.refusal_of(refusal)
    }
}

/// The refusal that says why the configuration doesn't change so.
fn refusal_of_fault(fault: ConfigFault) -> Refusal
    ensures { result ≡ refusal_of_fault fault }
{
    match fault {
        ConfigFault::OutOfRange => Refusal::OutOfRange,
        ConfigFault::DoubleUser => Refusal::DoubleUser,
        ConfigFault::DoubleFloor => Refusal::DoubleFloor,
        ConfigFault::NoFloor => Refusal::NoFloor,
        ConfigFault::UnknownChair => Refusal::UnknownChair,
        // No change of a configuration has another fault, but want of memory.
        _ => Refusal::Memory,
    }
}
