//! What may happen in one conference. In this crate an event is taken apart here alone: it says of itself
//! who joins by it and whose message it is, and a machine takes it by the call of its kind.

ghost use Rattle.std.specs.Option.{option_copied};
ghost use Rattle.std.specs.Prelude.{◌≡◌, ◌<◌, [], IfErr, IfOk, OnErr, OnOk, length};
ghost use Rattle.floor_machine.specs.Events as events;
ghost use Rattle.floor_machine.specs.Laws.{IsWhole};
ghost use Rattle.floor_machine.specs.Machine.{Applied, IsRefusedBy, Left, event_of_act, event_refusal, infos_changed};
ghost use Rattle.floor_machine.specs.Reply.{said_reply};

use crate::act::Act;
use crate::added::AddedUser;
use crate::machine::{Machine, Refusal};
use crate::parcel::Parcel;
use floor_config::Floor;
use floor_message::SharedInfo;
use floor_wire::{Copies, Frame, SharedFrame};
use std::alloc::{AllocError, Global};

/// How many events the journal of a conference has at most: our choice, so that what is kept of a
/// conference has an end.
pub const MAX_EVENTS: usize = 2_000_000;

/// What happens to a conference.
#[derive(Debug, Drop)]
pub enum Event {
    /// A connection of a user joins.
    Join {
        /// The user.
        user: u16,
    },
    /// A message of a member comes in.
    Message {
        /// The number of the member.
        n: u32,
        /// The message.
        frame: Frame,
    },
    /// Some of the messages that were told to a member were brought to their end: its connection has
    /// taken each of their bytes.
    Took {
        /// The number of the member.
        n: u32,
        /// How many: at least 1, and at most the member's backlog.
        k: u32,
    },
    /// A member leaves.
    Leave {
        /// Its number.
        n: u32,
    },
    /// The administrator revokes a floor request.
    Revoke {
        /// The number of the request.
        request: u16,
    },
    /// The administrator closes the conference.
    Close,
    /// The administrator adds a user.
    AddUser {
        /// The user, as it was handed in: its port and empty texts make no difference.
        user: AddedUser,
    },
    /// The administrator adds a floor.
    AddFloor {
        /// The floor.
        floor: Floor,
    },
    /// The administrator gives a floor another chair, or none.
    SetChair {
        /// The Floor ID.
        floor: u16,
        /// The User ID of the chair, if there is one.
        chair: Option<u16>,
    },
    /// The administrator says a message for a user.
    Say {
        /// The user.
        user: u16,
        /// The message.
        frame: Frame,
    },
}

impl Event {
    /// The event that an act of the administrator is. Takes no memory.
    pub fn of(act: Act) -> Event
        ensures value { result ≡ event_of_act act }
    {
        match act {
            Act::Revoke(request) => Event::Revoke { request },
            Act::Close => Event::Close,
            Act::AddUser(user) => Event::AddUser { user },
            Act::AddFloor(floor) => Event::AddFloor { floor },
            Act::SetChair(floor, chair) => Event::SetChair { floor, chair },
        }
    }

    /// The user that joins, where one does. Takes no memory.
    pub fn joiner(&self) -> Option<u16>
        ensures value { result ≡ events.joiner self.now }
    {
        match self {
            Event::Join { user } => Some(*user),
            _ => None,
        }
    }

    /// Whether the conference ends by it. Takes no memory.
    pub fn is_close(&self) -> bool
        ensures value { result ≡ events.is_close self.now }
    {
        match self {
            Event::Close => true,
            _ => false,
        }
    }

    /// The message, where the event is one of a member. Each message of an event is one whole message,
    /// as each frame is. Takes no memory.
    pub fn message(&self) -> Option<&Frame>
        ensures value { option_copied result ≡ events.message self.now }
        ensures whole { IsWhole self.now }
    {
        match self {
            Event::Message { frame, .. } => {
                let _bytes = frame.bytes();
                Some(frame)
            }
            Event::Say { frame, .. } => {
                let _bytes = frame.bytes();
                None
            }
            _ => None,
        }
    }

    /// The message, where the event is one of this member. Takes no memory.
    pub fn message_of(&self, n: u32) -> Option<&Frame>
        ensures value { option_copied result ≡ events.message_of n self.now }
    {
        match self {
            Event::Message { n: sender, frame } => { if *sender == n { Some(frame) } else { None } }
            _ => None,
        }
    }

    /// An equal event, which shares nothing with this one.
    pub fn copy(&self, alloc: Global) -> Result<Event, AllocError>
        ensures value { IfOk result (λ copy. copy ≡ self.now) }
    {
        match self {
            Event::Join { user } => Ok(Event::Join { user: *user }),
            Event::Message { n, frame } => {
                let frame = frame.copy(alloc)?;
                Ok(Event::Message { n: *n, frame })
            }
            Event::Took { n, k } => Ok(Event::Took { n: *n, k: *k }),
            Event::Leave { n } => Ok(Event::Leave { n: *n }),
            Event::Revoke { request } => Ok(Event::Revoke { request: *request }),
            Event::Close => Ok(Event::Close),
            Event::AddUser { user } => {
                let user = user.copy(alloc)?;
                Ok(Event::AddUser { user })
            }
            Event::AddFloor { floor } => Ok(Event::AddFloor { floor: *floor }),
            Event::SetChair { floor, chair } => Ok(Event::SetChair {
                floor: *floor,
                chair: *chair,
            }),
            Event::Say { user, frame } => {
                let frame = frame.copy(alloc)?;
                Ok(Event::Say { user: *user, frame })
            }
        }
    }

    /// The event, with an exact copy of its message, so that no buffer that it was cut from stays
    /// alive by it.
    pub fn exact(self, copies: &mut Copies) -> Result<Event, AllocError>
        ensures value { IfOk result (λ kept. kept ≡ self) }
    {
        match self {
            Event::Message { n, frame } => {
                let frame = copies.copy(&frame)?;
                Ok(Event::Message { n, frame })
            }
            Event::Say { user, frame } => {
                let frame = copies.copy(&frame)?;
                Ok(Event::Say { user, frame })
            }
            other => Ok(other),
        }
    }
}

impl Machine {
    /// Takes an event, appends what it tells the members to `out`, by ascending member, and puts what is
    /// shown of the floor requests that it changed into `changed`. It gives what answers a message that is
    /// said for a user. After a refusal nothing has changed, but that `Memory` leaves the machine broken.
    pub fn apply(
        &mut self,
        event: &Event,
        out: &mut Vec<Parcel>,
        changed: &mut Vec<SharedInfo>,
    ) -> Result<Option<SharedFrame>, Refusal>
        requires { length self.old.conference.members < 4294967295 }
        ensures took { OnOk result
            (Applied self.old event.now self.new out.old.items out.new.items) }
        ensures reply { IfOk result (λ reply. reply
            ≡ said_reply self.old.conference event.now) }
        ensures changed { OnOk result
            (changed.new.items ≡ infos_changed self.old.conference event.now) }
        ensures unchanged { OnErr result (changed.new.items ≡ []) }
        ensures refused { IsRefusedBy (event_refusal self.old event.now) result }
        ensures left { IfErr result
            (Left self.old event.now self.new out.old.items out.new.items) }
    {
        changed.clear();
        match event {
            Event::Join { user } => {
                self.join(*user)?;
                Ok(None)
            }
            Event::Message { n, frame } => {
                self.message(*n, frame, out, changed)?;
                Ok(None)
            }
            Event::Took { n, k } => {
                self.took(*n, *k)?;
                Ok(None)
            }
            Event::Leave { n } => {
                self.leave(*n, out, changed)?;
                Ok(None)
            }
            Event::Revoke { request } => {
                self.revoke(*request, out, changed)?;
                Ok(None)
            }
            Event::Close => {
                self.close(out, changed)?;
                Ok(None)
            }
            Event::AddUser { user } => {
                self.add_user(user, out, changed)?;
                Ok(None)
            }
            Event::AddFloor { floor } => {
                self.add_floor(*floor, out, changed)?;
                Ok(None)
            }
            Event::SetChair { floor, chair } => {
                self.set_chair(*floor, *chair, out, changed)?;
                Ok(None)
            }
            Event::Say { user, frame } => self.say(*user, frame, out, changed),
        }
    }
}
