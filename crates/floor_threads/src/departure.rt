//! Why a connection isn't served, or isn't any more, by what its thread found.

ghost use Rattle.std.specs.Prelude.{◌≡◌};
ghost use Rattle.floor_threads.specs.Departures.{departure_of, departure_of_read, refused_by_desk};

use floor_serve::{DeskRefusal, Phase, ReadEnd, ReadFault};
use floor_server::{Departure, Refused};

/// What is the matter where there is no desk.
pub fn refused_by_desk(refusal: DeskRefusal) -> Refused
    ensures value { result ≡ refused_by_desk refusal }
{
    match refusal {
        DeskRefusal::NoConference => Refused::NoConference,
        DeskRefusal::Memory => Refused::Memory,
    }
}

/// Why a member has left whose reading ended so, whose outbox was closed before it left or wasn't, whose
/// conference stands so, and whose port ends or doesn't: whom nothing more is told has left for that.
pub fn departure_of(
    end: Result<ReadEnd, ReadFault>,
    is_closed: bool,
    phase: Phase,
    is_ending: bool,
) -> Departure
    ensures value { result ≡ departure_of end is_closed phase is_ending }
{
    match phase {
        Phase::Ended => Departure::Closed,
        Phase::Broken => Departure::BrokenOff,
        Phase::Running if is_closed => Departure::Slow,
        Phase::Running if is_ending => Departure::Stopped,
        Phase::Running => read_departure(end),
    }
}

/// Why a member has left whom nothing but its reading ended.
fn read_departure(end: Result<ReadEnd, ReadFault>) -> Departure
    ensures value { result ≡ departure_of_read end }
{
    match end {
        Ok(ReadEnd::Closed) => Departure::EndOfStream,
        Ok(ReadEnd::Cut(_)) => Departure::InsideMessage,
        Err(ReadFault::Read) => Departure::Reset,
        Err(ReadFault::TurnLimit) => Departure::TurnLimit,
        Err(ReadFault::Refused(refusal)) => Departure::Message(refusal),
        Err(ReadFault::Memory) => Departure::Memory,
    }
}
