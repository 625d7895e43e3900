//! The server.

ghost use Rattle.std.specs.Prelude.{◌≡◌, ◌≤◌, ◌⊎◌, ◌*◌, ℕ, All, IfNone, IfSome, MatchOption, None, Some, [], max};
ghost use Rattle.floor_hub.specs.StandsFor.{StandsFor};
ghost use Rattle.floor_hub.specs.World.{nothing};
ghost use Rattle.floor_loop.specs.Loop.{over_at};
ghost use Rattle.floor_meetings.specs.Meetings.{AreCalledFor, lent_at, member_at};
ghost use Rattle.floor_turn.specs.Due.{IsDueAt};
ghost use Rattle.floor_sockets.specs.Sockets.{life_at};
ghost use Rattle.floor_connections.specs.Steps.{Steps};
ghost use Rattle.floor_turn.specs.Moves.{Moves, nothing_taken};

use floor_connections::{Connections, Fault};
use floor_meetings::{Bounds, Grace, Loop, Meetings, Member};
use std::alloc::Global;

/// How far the server is.
#[derive(Clone, Copy, Debug, PartialEq, Eq)]
pub(crate) enum Course {
    /// The ports of its start are listened on.
    Starting,
    /// It serves.
    Running,
    /// It was told to stop, or a port of its start can't be had.
    Stopping,
    /// Whoever is there is shut.
    Closing,
    /// All is done.
    Ended,
}

/// A floor control server: conferences, who is a member of them by a user's port or by a door, what came from each
/// and what is on its way to it, and whose turn it is.
///
/// - At the start: `new`, `with_grace` or `with_grace_for_all`; `end_longer`; `door` for each door, `health` for each port of probes,
///   `open` for each conference.
/// - While events are written down before anybody learns of them: `begin_keeping`, `hold`, `events_from`, `let_go`,
///   `end_keeping`.
/// - While it runs: `open`, `port`, `act`, `say`, `remove`, `close`, `forget`; `hub` lends the loop, by which conferences are read, and
///   `member` says who is at a socket. `stop` ends it.
/// - The poll's words: `readable`, `writable` for sockets and `knocked` for listeners, whenever it says so; and `time`.
/// - Deeds: `next` says what is to be done, one after another until it gives none. Each is done at once, and answered
///   by the call that `Deed` names: `listened`, `accepted`, `nobody`, `unaccepted`, `came`, `nothing`, `ended`,
///   `failed`, `took` or `shut`, or by `unwritten` where a write failed. `lent` lends what is to be written. Where `next`
///   gives none the poll is waited for, until `due` at most.
///
/// Sockets and listeners have numbers, of one table: a socket's is its own from `accepted` until `shut`, and then it may
/// be another's. An answer to what wasn't asked, and a word of a number that nobody has, change nothing. Times are
/// microseconds of a clock that doesn't go back; one that is earlier than the last counts as the last.
#[derive(Drop)]
pub struct Server {
    pub(crate) alloc: Global,
    pub(crate) connections: Connections,
    pub(crate) meetings: Meetings,
    pub(crate) course: Course,
    pub(crate) fault: Option<Fault>,
    /// Whether a member stays too whose stream ended in order.
    pub(crate) is_for_all: bool,
    /// The conference that the last calls asked something of.
    pub(crate) touched: Option<u32>,
    /// How many bytes a message may have, header included, where that is bounded.
    pub(crate) longest: Option<u32>,
}

impl Server {
    /// No conference, no listener and nobody, within these bounds. A member leaves once its socket was shut. Takes no
    /// memory.
    pub fn new(alloc: Global, bounds: Bounds) -> Server
        ensures meetings { StandsFor result.meetings.hub.hub nothing }
        ensures members { (socket : ℕ) → member_at result.meetings socket ≡ None }
        ensures sockets { (socket : ℕ) → life_at result.connections.sockets socket ≡ None }
    {
        Server {
            alloc,
            connections: Connections::new(alloc),
            meetings: Meetings::new(alloc, bounds),
            course: Course::Starting,
            fault: None,
            is_for_all: false,
            touched: None,
            longest: None,
        }
    }

    /// The same, where a member whose connection was lost stays for a while, away, so that its user can come back; `grace`
    /// is in milliseconds. One whose stream ended in order, or whose user has another connection there, leaves at once.
    pub fn with_grace(alloc: Global, bounds: Bounds, grace: Grace) -> Server
        ensures meetings { StandsFor result.meetings.hub.hub nothing }
        ensures members { (socket : ℕ) → member_at result.meetings socket ≡ None }
        ensures sockets { (socket : ℕ) → life_at result.connections.sockets socket ≡ None }
    {
        Server {
            alloc,
            connections: Connections::new(alloc),
            meetings: Meetings::with_grace(alloc, bounds, grace),
            course: Course::Starting,
            fault: None,
            is_for_all: false,
            touched: None,
            longest: None,
        }
    }

    /// The same, where a member stays too whose stream ended in order.
    pub fn with_grace_for_all(alloc: Global, bounds: Bounds, grace: Grace) -> Server
        ensures meetings { StandsFor result.meetings.hub.hub nothing }
        ensures members { (socket : ℕ) → member_at result.meetings socket ≡ None }
        ensures sockets { (socket : ℕ) → life_at result.connections.sockets socket ≡ None }
    {
        Server {
            alloc,
            connections: Connections::new(alloc),
            meetings: Meetings::with_grace(alloc, bounds, grace),
            course: Course::Starting,
            fault: None,
            is_for_all: true,
            touched: None,
            longest: None,
        }
    }

    /// From now on a message of more than so many bytes, header included, ends its member's connection: what stands in front
    /// of it is served. To be called before anybody is accepted.
    pub fn end_longer(&mut self, longest: u32)
        ensures next { self.new ≡ record self.old { longest = Some longest } }
    {
        self.longest = Some(longest);
    }

    /// Lends the loop, by which conferences are read: their status, their members, their journals.
    pub fn hub(&self) -> &Loop
        ensures value { result.now ≡ self.now.meetings.hub }
    {
        self.meetings.hub()
    }

    /// The member at a socket.
    pub fn member(&self, socket: usize) -> Option<Member>
        ensures value { result ≡ member_at self.now.meetings socket }
    {
        self.meetings.get(socket)
    }

    /// It is so late, in microseconds, unless it was later before.
    pub fn time(&mut self, now: u64)
        ensures sockets { self.new.connections.sockets
            ≡ record self.old.connections.sockets { time = max self.old.connections.sockets.time now } }
        ensures meetings { self.new.meetings ≡ self.old.meetings }
        ensures steps { Steps self.old.connections.sockets self.new.connections.sockets }
    {
        self.connections.pass(now);
    }

    /// When the time is wanted next, in microseconds: at the soonest time that is due for a socket, or over for a member.
    /// Behind a `next` that gave nothing it is later than now, unless somebody's is over of a conference that is held.
    pub fn due(&mut self) -> Option<u64>
        ensures found { IfSome result (IsDueAt self.old) }
        ensures sockets { IfSome result (λ time. All (λ d. time ≤ d.until)
            self.old.connections.sockets.deadlines) }
        ensures over { IfSome result (λ time. (number until : ℕ)
            → over_at self.old.meetings.hub number ≡ Some until → time ≤ until * 1000) }
        ensures none { IfNone result (self.old.connections.sockets.deadlines ≡ []) }
        ensures nobody { IfNone result ((number : ℕ)
            → over_at self.old.meetings.hub number ≡ None) }

        ensures connections { self.new.connections ≡ self.old.connections }
        ensures hub { self.new.meetings.hub ≡ self.old.meetings.hub }
        ensures members { self.new.meetings.members ≡ self.old.meetings.members }
        ensures moves { Moves nothing_taken self.old.meetings self.new.meetings }
    {
        let of_sockets = self.connections.sockets.due();
        match self.meetings.next_due() {
            Some(millis) => Some(earlier(of_sockets, millis.saturating_mul(1_000))),
            None => of_sockets,
        }
    }

    /// What is to be written to a socket, 64 KiB at most: nothing where no member has it.
    pub fn lent(&self, socket: usize) -> &[u8]
        ensures value { result.now ≡ lent_at self.now.meetings socket }
        ensures called { MatchOption (member_at self.now.meetings socket) (result.now ≡ [])
            (λ m. AreCalledFor self.now.meetings.hub m.number result.now) }
    {
        self.meetings.lent(socket)
    }
}

/// The earlier of a time, where there is one, and another.
fn earlier(time: Option<u64>, other: u64) -> u64
    ensures within { result ≤ other }
    ensures before { IfSome time (λ t. result ≤ t) }
    ensures one { (result ≡ other) ⊎ (time ≡ Some result) }
{
    match time {
        Some(time) => time.min(other),
        None => other,
    }
}
