//! The queries and Hello: their own checks, and the decisions that they come to (RFC 8855, sections 12 and
//! 13).

ghost use Rattle.std.specs.List.{list_all};
ghost use Rattle.std.specs.Option.{option_map_or};
ghost use Rattle.std.specs.Prelude.{ℕ, ◌≡◌, ◌∷◌, [], IfOk, Option, not, true};
ghost use Rattle.floor_config.specs.Lookup.{is_floor, is_user};
ghost use Rattle.floor_message.specs.declared.ask.Ask.TheVariants.{FloorQuery, FloorRequestQuery, Hello, UserQuery};
ghost use Rattle.floor_machine.specs.Checks.{first_of, on_request, when};
ghost use Rattle.floor_machine.specs.steps.Deciding.{asked, watch_by};
ghost use Rattle.floor_machine.specs.steps.Serving.{conference_of};

use crate::conference::State;
use crate::decision::{Change, Decision, Reply};
use floor_message::ErrorCode;
use floor_wire::Numbers;
use std::alloc::{AllocError, Global};

impl State {
    /// What a FloorRequestQuery comes to.
    #[tactic(auto, unfolding(crate::specs::Checks::refusal))]
    pub(crate) fn decide_query(&self, alloc: Global, request: u16) -> Decision
        ensures value { (n : Option ℕ) (user : ℕ)
            → result ≡ asked (conference_of self.now) n user (FloorRequestQuery request) }
    {
        match self.query_refusal(request) {
            Some(code) => Decision::refused(alloc, code),
            None => Decision {
                change: Change::Nothing,
                reply: Reply::Status(request),
            },
        }
    }

    /// What a UserQuery comes to.
    #[tactic(auto, unfolding(crate::specs::Checks::refusal))]
    pub(crate) fn decide_user(&self, alloc: Global, beneficiary: Option<u16>) -> Decision
        ensures value { (n : Option ℕ) (user : ℕ)
            → result ≡ asked (conference_of self.now) n user (UserQuery beneficiary) }
    {
        match self.user_refusal(beneficiary) {
            Some(code) => Decision::refused(alloc, code),
            None => Decision {
                change: Change::Nothing,
                reply: Reply::User(beneficiary),
            },
        }
    }

    /// What a FloorQuery comes to: the member with this number watches, where one sent it.
    #[tactic(auto, unfolding(crate::specs::Checks::refusal))]
    pub(crate) fn decide_floors(
        &self,
        alloc: Global,
        n: Option<u32>,
        floors: Numbers,
    ) -> Result<Decision, AllocError>
        ensures value { IfOk result (λ decision. (user : ℕ)
            → decision ≡ asked (conference_of self.now) n user (FloorQuery floors)) }
    {
        match self.floors_refusal(floors.as_slice()) {
            Some(code) => Ok(Decision::refused(alloc, code)),
            None => {
                let change = watch_by(alloc, n, &floors)?;
                Ok(Decision {
                    change,
                    reply: Reply::Floors(floors),
                })
            }
        }
    }

    /// What a Hello comes to: it has no checks of its own. Takes no memory.
    #[tactic(auto, unfolding(crate::specs::Checks::refusal))]
    pub(crate) fn decide_hello(&self) -> Decision
        ensures value { (n : Option ℕ) (user : ℕ) → result ≡ asked (conference_of self.now) n user Hello }
    {
        Decision {
            change: Change::Nothing,
            reply: Reply::Hello,
        }
    }

    /// The error code by which the own checks refuse a FloorRequestQuery.
    fn query_refusal(&self, request: u16) -> Option<ErrorCode>
        ensures { result ≡ on_request (conference_of self.now) request (λ r. []) }
    {
        match self.requests.get(request) {
            None => Some(ErrorCode::FloorRequestIdDoesNotExist),
            Some(_found) => None,
        }
    }

    /// The error code by which the own checks refuse a UserQuery.
    fn user_refusal(&self, beneficiary: Option<u16>) -> Option<ErrorCode>
        ensures { result
            ≡ first_of (when (not (option_map_or (is_user self.now.config) beneficiary true))
            ErrorCode.UserDoesNotExist ∷ []) }
    {
        match beneficiary {
            None => None,
            Some(user) => {
                if self.config.is_user(user) {
                    None
                } else {
                    Some(ErrorCode::UserDoesNotExist)
                }
            }
        }
    }

    /// The error code by which the own checks refuse a FloorQuery.
    fn floors_refusal(&self, floors: &[u16]) -> Option<ErrorCode>
        ensures { result
            ≡ first_of (when (not (list_all (is_floor self.now.config.floors) floors.now))
            ErrorCode.InvalidFloorId ∷ []) }
    {
        if self.config.has_floors(floors) {
            None
        } else {
            Some(ErrorCode::InvalidFloorId)
        }
    }
}

/// The member with this number watches these floors, where one asked about them.
fn watch_by(alloc: Global, n: Option<u32>, floors: &Numbers) -> Result<Change, AllocError>
    ensures { IfOk result (λ change. change ≡ watch_by n floors.now) }
{
    match n {
        None => Ok(Change::Nothing),
        Some(n) => Ok(Change::Watch(n, floors.copy(alloc)?)),
    }
}
