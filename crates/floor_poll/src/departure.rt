//! Why a connection isn't served any more, as the log tells.

ghost use Rattle.std.specs.Prelude.{◌≡◌};
ghost use Rattle.floor_poll.specs.Departures.{departure_at, departure_of, refused_by};

use floor_loop::HubRefusal;
use floor_room::Phase;
use floor_server::{Departure, Refused};

/// How the reading of a connection ended.
#[derive(Clone, Copy, Debug, PartialEq, Eq)]
pub enum End {
    /// Its stream ended, and so many bytes were left that are no whole message.
    Stream(usize),
    /// A read or a write failed.
    Failure,
    /// It began a message that is longer than the server takes.
    TooLong,
    /// A message was refused.
    Refused(HubRefusal),
    /// An administrator has shown it out.
    Removed,
}

/// Why a member has left whose conference stands so, who was cut or wasn't, whose server stops or doesn't, and
/// whose reading ended so.
pub fn departure_of(phase: Phase, is_cut: bool, is_stopping: bool, end: Option<End>) -> Departure
    ensures value { result ≡ departure_of phase is_cut is_stopping end }
{
    match phase {
        Phase::Ended => Departure::Closed,
        Phase::Broken => Departure::BrokenOff,
        Phase::Running if is_cut => Departure::Slow,
        Phase::Running if is_stopping => Departure::Stopped,
        Phase::Running => match end {
            Some(end) => departure_at(end),
            None => Departure::Reset,
        },
    }
}

/// Why a member has left whom nothing but its reading ended.
fn departure_at(end: End) -> Departure
    ensures value { result ≡ departure_at end }
{
    match end {
        End::Stream(0) => Departure::EndOfStream,
        End::Stream(_) => Departure::InsideMessage,
        End::Failure => Departure::Reset,
        End::TooLong => Departure::TooLong,
        End::Refused(HubRefusal::ByRoom(refusal)) => Departure::Message(refusal),
        End::Refused(_) => Departure::Memory,
        End::Removed => Departure::Removed,
    }
}

/// Why a connection doesn't join whom the hub refuses so.
pub fn refused_by(refusal: HubRefusal) -> Refused
    ensures value { result ≡ refused_by refusal }
{
    match refusal {
        HubRefusal::ByRoom(refusal) => Refused::ByRoom(refusal),
        HubRefusal::Memory => Refused::Memory,
        HubRefusal::NoConference
        | HubRefusal::Forgotten
        | HubRefusal::Running
        | HubRefusal::NoConnection
        | HubRefusal::BadMessage
        | HubRefusal::Used => Refused::NoConference,
    }
}
