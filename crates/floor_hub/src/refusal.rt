//! Why a call of the hub is refused.

ghost use Rattle.std.specs.Prelude.{◌≡◌};

use floor_room::RoomRefusal;

/// Why a call is refused. The first that applies is answered.
#[derive(Clone, Copy, Debug, PartialEq, Eq)]
pub enum HubRefusal {
    /// A conference has the number, or had it.
    Used,
    /// No conference has the number.
    NoConference,
    /// The conference with the number was forgotten.
    Forgotten,
    /// The conference hasn't ended, or its room is broken off, or a connection of it is live.
    Running,
    /// No live connection has the number.
    NoConnection,
    /// What is said for a user isn't exactly one message.
    BadMessage,
    /// Memory was refused, and nothing has changed.
    Memory,
    /// The conference's room refuses it. Where that is for want of memory, the room is broken off.
    ByRoom(RoomRefusal),
}

impl HubRefusal {
    ghost use Rattle.floor_hub.specs.Names.{is_memory, name_of};

    /// The name of the variant, or of the room's refusal that it wraps. Takes no memory.
    pub fn name(&self) -> &'static str
        ensures value { result.now ≡ name_of self.now }
    {
        match self {
            HubRefusal::Used => "Used",
            HubRefusal::NoConference => "NoConference",
            HubRefusal::Forgotten => "Forgotten",
            HubRefusal::Running => "Running",
            HubRefusal::NoConnection => "NoConnection",
            HubRefusal::BadMessage => "BadMessage",
            HubRefusal::Memory => "Memory",
            HubRefusal::ByRoom(refusal) => refusal.name(),
        }
    }

    /// Whether it is want of memory, in a room, which is broken off then, or outside, where nothing
    /// has changed. Takes no memory.
    pub fn is_memory(&self) -> bool
        ensures value { result ≡ is_memory self.now }
    {
        match self {
            HubRefusal::Memory => true,
            HubRefusal::ByRoom(refusal) => refusal.is_memory(),
            HubRefusal::Used
            | HubRefusal::NoConference
            | HubRefusal::Forgotten
            | HubRefusal::Running
            | HubRefusal::NoConnection
            | HubRefusal::BadMessage => false,
        }
    }
}
