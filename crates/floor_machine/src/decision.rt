//! What an event comes to once it is checked: what it changes, and what answers its sender. Whatever a
//! later step needs of the event is moved into its decision.

use crate::added::AddedUser;
use floor_config::Floor;
use floor_message::{ErrorCode, Head, Verdicts};
use floor_queue::New;
use floor_wire::{Numbers, Octets};
use std::alloc::Global;

/// Who ends a floor request.
#[derive(Clone, Copy, Debug)]
pub(crate) enum EndedBy {
    /// Its requester or its beneficiary, who gives it back.
    Participant,
    /// A chair, or the administrator.
    Chair,
}

/// What is to be changed.
#[derive(Debug, Drop)]
pub(crate) enum Change {
    /// Nothing.
    Nothing,
    /// A floor request is added.
    Add(New),
    /// The ongoing floor request with this number ends, for this reason where a chair gives one.
    End(u16, EndedBy, Option<Octets>),
    /// The verdicts leave their words on the floors of the ongoing request with this number, for this
    /// reason where the chair gives one.
    Words(u16, Verdicts, Option<Octets>),
    /// The member with this number watches these floors.
    Watch(u32, Numbers),
    /// The member with this number is no longer live, and where it was the last of its user, the
    /// requests for that user end.
    Leave(u32),
    /// The conference ends.
    Close,
    /// A user is added behind the others.
    AddUser(AddedUser),
    /// A floor is added behind the others.
    AddFloor(Floor),
    /// The floor with this id has this chair, or none.
    SetChair(u16, Option<u16>),
}

/// What the sender is to be answered.
#[derive(Debug, Drop)]
pub(crate) enum Reply {
    /// Nothing.
    Nothing,
    /// The status of the floor request with this number.
    Status(u16),
    /// The status of the floor request that was added.
    Added,
    /// The user that is asked about, and its floor requests; the sender's, where none is.
    User(Option<u16>),
    /// The statuses of these floors.
    Floors(Numbers),
    /// That the verdicts are taken.
    Ack,
    /// What the server supports.
    Hello,
    /// An Error with this code and these details.
    Error(ErrorCode, Octets),
}

/// Who sent the message that an event is: a member, or nobody, where it is said for a user.
#[derive(Clone, Copy, Debug)]
pub(crate) struct Sender {
    /// The number of the member, where one sent it.
    pub n: Option<u32>,
    /// The user whose connection the member is, or for whom the message is said.
    pub user: u16,
    /// The head of what answers the message.
    pub head: Head,
}

/// What an event comes to.
#[derive(Debug, Drop)]
pub(crate) struct Decision {
    /// What it changes.
    pub change: Change,
    /// What answers its sender, where the event is a message.
    pub reply: Reply,
}

impl Decision {
    ghost use Rattle.std.specs.Prelude.{◌≡◌};
    ghost use Rattle.floor_machine.specs.steps.Deciding.{changing, refused_by};

    /// The event changes this, and nobody is answered. Takes no memory.
    pub(crate) fn to(change: Change) -> Decision
        ensures { result ≡ changing change }
    {
        Decision {
            change,
            reply: Reply::Nothing,
        }
    }

    /// The message is refused by this error code, and changes nothing. Takes no memory.
    pub(crate) fn refused(alloc: Global, code: ErrorCode) -> Decision
        ensures { result ≡ refused_by code }
    {
        Decision {
            change: Change::Nothing,
            reply: Reply::Error(code, Octets::from_vec(Vec::new(alloc))),
        }
    }
}
