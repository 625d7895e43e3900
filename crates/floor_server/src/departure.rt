//! Why a connection isn't served, or isn't any more, as the log tells.

ghost use Rattle.std.specs.Prelude.{◌≡◌};
ghost use Rattle.floor_server.specs.Departures.{name_of_departure, name_of_refused, refused_by_table};

use floor_console::RoomRefusal;
use floor_listen::Unserved;
use floor_proxy::ProxyRefusal;

/// Why a connection doesn't join its conference.
#[derive(Clone, Copy, Debug, PartialEq, Eq)]
pub enum Refused {
    /// What came at a door is a front of a header at most, and its time or its stream is over.
    NoHeader,
    /// What came at a door isn't a header that says who it is.
    ByHeader(ProxyRefusal),
    /// The user has as many connections as one may have.
    UserConnections,
    /// The conference has 128 connections.
    Connections,
    /// The conference isn't open yet.
    NoConference,
    /// The conference refuses it.
    ByRoom(RoomRefusal),
    /// No thread can be had.
    NoThread,
    /// Memory was refused.
    Memory,
}

impl Refused {
    /// What a table of connections refuses one by.
    pub fn by_table(unserved: Unserved) -> Refused
        ensures value { result ≡ refused_by_table unserved }
    {
        match unserved {
            Unserved::Full => Refused::Connections,
            Unserved::Memory => Refused::Memory,
        }
    }

    /// What a person is told. Takes no memory.
    pub fn name(&self) -> &'static str
        ensures value { result.now ≡ name_of_refused self.now }
    {
        match self {
            Refused::NoHeader => "NoHeader",
            Refused::ByHeader(refusal) => refusal.name(),
            Refused::UserConnections => "UserConnections",
            Refused::Connections => "Connections",
            Refused::NoConference => "NoConference",
            Refused::ByRoom(refusal) => refusal.name(),
            Refused::NoThread => "NoThread",
            Refused::Memory => "Memory",
        }
    }
}

/// Why a member has left.
#[derive(Clone, Copy, Debug, PartialEq, Eq)]
pub enum Departure {
    /// Its stream ended behind a whole message, or before the first.
    EndOfStream,
    /// Its stream ended inside a message.
    InsideMessage,
    /// A read failed, as where the peer resets the connection.
    Reset,
    /// It began a message that is longer than the server takes.
    TooLong,
    /// The conference refused a message.
    Message(RoomRefusal),
    /// It was cut, since it had more than 1,024 messages not acknowledged.
    Slow,
    /// The conference was closed.
    Closed,
    /// The conference was broken off.
    BrokenOff,
    /// Its port ends, as where the server stops.
    Stopped,
    /// An administrator has shown it out.
    Removed,
    /// It was read from as often as a connection is at most.
    TurnLimit,
    /// No thread can be had for its writer.
    NoThread,
    /// Memory was refused.
    Memory,
}

impl Departure {
    /// What a person is told. Takes no memory.
    pub fn name(&self) -> &'static str
        ensures value { result.now ≡ name_of_departure self.now }
    {
        match self {
            Departure::EndOfStream => "EndOfStream",
            Departure::InsideMessage => "InsideMessage",
            Departure::Reset => "Reset",
            Departure::TooLong => "TooLong",
            Departure::Message(refusal) => refusal.name(),
            Departure::Slow => "Slow",
            Departure::Closed => "Closed",
            Departure::BrokenOff => "BrokenOff",
            Departure::Stopped => "Stopped",
            Departure::Removed => "Removed",
            Departure::TurnLimit => "TurnLimit",
            Departure::NoThread => "NoThread",
            Departure::Memory => "Memory",
        }
    }
}
