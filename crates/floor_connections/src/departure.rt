//! Why a member's socket was shut.

ghost use Rattle.std.specs.Prelude.{◌≡◌};

use floor_meetings::HubRefusal;

/// Why a member's socket was shut: the first that applied.
#[derive(Clone, Copy, Debug, PartialEq, Eq)]
pub enum Departure {
    /// Its stream ended behind a whole message, or before the first.
    EndOfStream,
    /// Its stream ended inside a message.
    InsideMessage,
    /// A read failed, as where the peer resets the connection.
    Reset,
    /// The hub refused its bytes or a message.
    Refused(HubRefusal),
    /// It began a message that is longer than the server takes.
    TooLong,
    /// It was cut, since it had more than 1,024 messages not acknowledged.
    Slow,
    /// Its conference was closed.
    Closed,
    /// Its conference was broken off.
    BrokenOff,
    /// It was shown out.
    Removed,
    /// The server stops.
    Stopped,
}

impl Departure {
    ghost use Rattle.floor_connections.specs.Names.{name_of_departure};

    /// Whether its connection was lost: then its member may stay. One whose stream ended in order is lost where that is
    /// asked for.
    pub fn is_lost(&self, is_for_all: bool) -> bool {
        match self {
            Departure::Reset | Departure::InsideMessage => true,
            Departure::EndOfStream => is_for_all,
            Departure::Refused(_)
            | Departure::TooLong
            | Departure::Slow
            | Departure::Closed
            | Departure::BrokenOff
            | Departure::Removed
            | Departure::Stopped => false,
        }
    }

    /// The name of the variant, or of the refusal. Takes no memory.
    pub fn name(&self) -> &'static str
        ensures value { result.now ≡ name_of_departure self.now }
    {
        match self {
            Departure::EndOfStream => "EndOfStream",
            Departure::InsideMessage => "InsideMessage",
            Departure::Reset => "Reset",
            Departure::Refused(refusal) => refusal.name(),
            Departure::TooLong => "TooLong",
            Departure::Slow => "Slow",
            Departure::Closed => "Closed",
            Departure::BrokenOff => "BrokenOff",
            Departure::Removed => "Removed",
            Departure::Stopped => "Stopped",
        }
    }
}
