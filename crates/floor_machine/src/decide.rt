//! What a message comes to: it is read, and each primitive has its own checks (RFC 8855,
//! section 13).

ghost use Rattle.std.specs.Prelude.{◌≡◌, IfOk};
ghost use Rattle.floor_config.specs.Configuration.{user_ids};
ghost use Rattle.floor_message.specs.Ask.{Answer};
ghost use Rattle.floor_message.specs.Laws.{FitsButForCounts};
ghost use Rattle.floor_machine.specs.steps.Deciding.{MayChange, asked, decision_of, heard};
ghost use Rattle.floor_machine.specs.steps.Fitting.{DetailsFit};
ghost use Rattle.floor_machine.specs.steps.Serving.{conference_of};

use crate::conference::State;
use crate::decision::{Change, Decision, Reply, Sender};
use crate::said::hear;
use floor_message::{Ask, AskFault, Binding, what_is_asked_fits};
use floor_wire::Frame;
use std::alloc::{AllocError, Global};

impl State {
    /// What the message of its sender comes to.
    pub(crate) fn decide(
        &self,
        alloc: Global,
        sender: &Sender,
        frame: &Frame,
    ) -> Result<Decision, AllocError>
        ensures value { IfOk result (λ decision. (a : Answer)
            → a ≡ heard sender.now.n frame.now record {
              conference = self.now.config.conference;
              user = sender.now.user;
              users = user_ids self.now.config.users;
            }
            → decision ≡ decision_of (conference_of self.now) sender.now.n
            sender.now.user a) }
        ensures may { IfOk result (λ decision. MayChange (conference_of self.now) decision.change) }
        ensures details { IfOk result (λ decision. DetailsFit decision.reply) }
    {
        what_is_asked_fits();
        let binding = Binding {
            conference: self.config.conference(),
            user: sender.user,
            users: self.users.as_slice(),
        };
        match hear(alloc, sender.n, frame, &binding) {
            Err(AskFault::Memory) => Err(AllocError),
            Err(AskFault::Error { code, details }) => Ok(Decision {
                change: Change::Nothing,
                reply: Reply::Error(code, details),
            }),
            Ok(None) => Ok(Decision::to(Change::Nothing)),
            Ok(Some(ask)) => self.decide_ask(alloc, sender, ask),
        }
    }

    /// What is asked comes to.
    fn decide_ask(&self, alloc: Global, sender: &Sender, ask: Ask) -> Result<Decision, AllocError>
        requires { FitsButForCounts ask }
        ensures value { IfOk result (λ decision. decision
            ≡ asked (conference_of self.now) sender.now.n sender.now.user ask) }
        ensures may { IfOk result (λ decision. MayChange (conference_of self.now) decision.change) }
        ensures details { IfOk result (λ decision. DetailsFit decision.reply) }
    {
        self.by_primitive(alloc, sender, ask)
    }

    /// What is asked comes to: each primitive has its own checks.
    fn by_primitive(&self, alloc: Global, sender: &Sender, ask: Ask) -> Result<Decision, AllocError>
        ensures value { IfOk result (λ decision. decision
            ≡ asked (conference_of self.now) sender.now.n sender.now.user ask) }
    {
        let user = sender.user;
        match ask {
            Ask::FloorRequest {
                beneficiary,
                floors,
                priority,
                info,
            } => Ok(self.decide_request(alloc, user, beneficiary, floors, priority, info)),
            Ask::FloorRelease { request } => Ok(self.decide_release(alloc, user, request)),
            Ask::FloorRequestQuery { request } => Ok(self.decide_query(alloc, request)),
            Ask::UserQuery { beneficiary } => Ok(self.decide_user(alloc, beneficiary)),
            Ask::FloorQuery { floors } => self.decide_floors(alloc, sender.n, floors),
            Ask::ChairAction {
                request,
                verdicts,
                reason,
            } => Ok(self.decide_action(alloc, user, request, verdicts, reason)),
            Ask::Hello => Ok(self.decide_hello()),
        }
    }
}
