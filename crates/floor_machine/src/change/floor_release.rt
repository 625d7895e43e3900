//! A FloorRelease: its own checks, and the decision that it comes to (RFC 8855, sections 10.2 and 13.4).

ghost use Rattle.std.specs.Prelude.{◌≡◌, ℕ, Option};
ghost use Rattle.floor_message.specs.declared.ask.Ask.TheVariants.{FloorRelease};
ghost use Rattle.floor_machine.specs.Checks.{on_request, release_checks};
ghost use Rattle.floor_machine.specs.steps.Deciding.{asked};
ghost use Rattle.floor_machine.specs.steps.Serving.{conference_of};

use crate::conference::State;
use crate::decision::{Change, Decision, EndedBy, Reply};
use floor_message::ErrorCode;
use std::alloc::Global;

impl State {
    /// What a FloorRelease of this user comes to.
    #[tactic(auto, unfolding(crate::specs::Checks::refusal))]
    pub(crate) fn decide_release(&self, alloc: Global, user: u16, request: u16) -> Decision
        ensures value { (n : Option ℕ)
            → result ≡ asked (conference_of self.now) n user (FloorRelease request) }
    {
        match self.release_refusal(user, request) {
            Some(code) => Decision::refused(alloc, code),
            None => Decision {
                change: Change::End(request, EndedBy::Participant, None),
                reply: Reply::Status(request),
            },
        }
    }

    /// The error code by which the own checks refuse a FloorRelease.
    fn release_refusal(&self, user: u16, request: u16) -> Option<ErrorCode>
        ensures { result ≡ on_request (conference_of self.now) request (release_checks user) }
    {
        match self.requests.get(request) {
            None => Some(ErrorCode::FloorRequestIdDoesNotExist),
            Some(found) => {
                if found.involves(user) {
                    None
                } else {
                    Some(ErrorCode::UnauthorizedOperation)
                }
            }
        }
    }
}
