//! What a loop counts.

ghost use Rattle.std.specs.Prelude.{◌≡◌};
ghost use Rattle.floor_poll.specs.Counters.{both, no_counts, noted_each, open_of, refused_by, refused_by_header, refused_by_room, timed, with_conference};
ghost use Rattle.floor_control.specs.Refused.{plus};

use floor_console::{Refusal, RoomRefusal};
use floor_control::{EventTimes, Metrics, RefusedCounts};
use floor_loop::Status;
use floor_room::Phase;
use floor_server::{ProxyRefusal, Refused};

/// Nothing was counted.
pub fn no_counts() -> Metrics
    ensures value { result ≡ no_counts }
{
    Metrics {
        conferences: 0,
        members: 0,
        connections: 0,
        events: 0,
        messages: 0,
        told: 0,
        cut: 0,
        refused: RefusedCounts::new(),
        accept_failures: 0,
        event_times: EventTimes::new(),
    }
}

/// What two loops have counted together.
pub fn both(one: Metrics, other: Metrics) -> Metrics
    ensures value { result ≡ both one other }
{
    Metrics {
        conferences: one.conferences.saturating_add(other.conferences),
        members: one.members.saturating_add(other.members),
        connections: one.connections.saturating_add(other.connections),
        events: one.events.saturating_add(other.events),
        messages: one.messages.saturating_add(other.messages),
        told: one.told.saturating_add(other.told),
        cut: one.cut.saturating_add(other.cut),
        refused: one.refused.with(other.refused),
        accept_failures: one.accept_failures.saturating_add(other.accept_failures),
        event_times: one.event_times.with(other.event_times),
    }
}

/// What was counted, with a conference that stands so.
pub fn with_conference(counts: Metrics, status: Status) -> Metrics
    ensures value { result ≡ with_conference status counts }
{
    Metrics {
        conferences: counts.conferences.saturating_add(open_of(status.phase)),
        members: counts.members.saturating_add(u64::from(status.members)),
        events: counts.events.saturating_add(u64::from(status.events)),
        ..counts
    }
}

/// How many open conferences one in this phase is.
fn open_of(phase: Phase) -> u64
    ensures value { result ≡ open_of phase }
{
    match phase {
        Phase::Running => 1,
        Phase::Ended | Phase::Broken => 0,
    }
}

/// Counts events that took so many nanoseconds together, each as long as another.
pub fn note_times(counts: &mut Metrics, nanoseconds: u64, events: u32)
    ensures value { counts.new ≡ timed nanoseconds events counts.old }
{
    let Some(each) = nanoseconds.checked_div(u64::from(events)) else {
        return;
    };
    note_each(&mut counts.event_times, each, events);
}

/// Counts so many events, each of which took so many nanoseconds.
fn note_each(times: &mut EventTimes, nanoseconds: u64, events: u32)
    ensures value { times.new ≡ noted_each events nanoseconds times.old }
{
    for noted in 0..events {
        times.note(nanoseconds);
    }
}

/// Counts one that joins no conference, by why it doesn't.
pub fn count_refused(counts: &mut RefusedCounts, cause: Refused)
    ensures value { counts.new ≡ refused_by cause counts.old }
{
    match cause {
        Refused::NoHeader => count_one(&mut counts.no_header),
        Refused::ByHeader(refusal) => count_header(counts, refusal),
        Refused::NoConference => count_one(&mut counts.no_conference),
        Refused::UserConnections => count_one(&mut counts.user_connections),
        Refused::Connections => count_one(&mut counts.connections),
        Refused::ByRoom(RoomRefusal::JournalFull) => count_one(&mut counts.journal_full),
        Refused::ByRoom(RoomRefusal::Refused(refusal)) => count_room(counts, refusal),
        Refused::Memory | Refused::NoThread => count_one(&mut counts.memory),
    }
}

/// Counts one whose header isn't taken at a door.
fn count_header(counts: &mut RefusedCounts, refusal: ProxyRefusal)
    ensures value { counts.new ≡ refused_by_header refusal counts.old }
{
    match refusal {
        ProxyRefusal::BadHeader => count_one(&mut counts.bad_header),
        ProxyRefusal::NoCertificate => count_one(&mut counts.no_certificate),
        ProxyRefusal::NotVerified => count_one(&mut counts.not_verified),
        ProxyRefusal::NoName => count_one(&mut counts.no_name),
        ProxyRefusal::BadName => count_one(&mut counts.bad_name),
    }
}

/// Counts one that its conference refuses. None is refused by what isn't counted.
fn count_room(counts: &mut RefusedCounts, refusal: Refusal)
    ensures value { counts.new ≡ refused_by_room refusal counts.old }
{
    match refusal {
        Refusal::Full => count_one(&mut counts.full),
        Refusal::Ended => count_one(&mut counts.ended),
        Refusal::Broken => count_one(&mut counts.broken),
        Refusal::NoUser => count_one(&mut counts.no_user),
        Refusal::Memory => count_one(&mut counts.memory),
        Refusal::NoMember
        | Refusal::NoRequest
        | Refusal::Cut
        | Refusal::BadCount
        | Refusal::OutOfRange
        | Refusal::DoubleUser
        | Refusal::DoubleFloor
        | Refusal::NoFloor
        | Refusal::UnknownChair => {}
    }
}

fn count_one(count: &mut u64)
    ensures value { count.new ≡ plus count.old 1 }
{
    *count = count.saturating_add(1);
}
