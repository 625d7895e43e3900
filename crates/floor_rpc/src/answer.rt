//! What answers a request that was carried out.

use crate::list::List;
use crate::picture::Picture;
use floor_config::Text;
use floor_message::RequestStatus;
use floor_room::Phase;

/// What a request that was carried out is answered by.
#[derive(Drop)]
pub enum Answer {
    /// It is done, and there is nothing to say.
    Done,
    /// It is an event of the conference.
    Placed(Placed),
    /// A conference was opened.
    Opened(Opened),
    /// The conferences.
    Conferences(Conferences),
    /// A whole conference.
    Picture(Picture),
    /// A user was added.
    UserAdded(UserAdded),
    /// A floor was added, or its chair was set.
    FloorChanged(FloorChanged),
    /// A floor request was made.
    Created(Created),
    /// Words.
    Words(WordsTold),
    /// What is watched.
    Watched(WatchedFrom),
    /// What happened.
    Journal(JournalPart),
    /// How the server stands.
    Server(ServerStanding),
    /// The server stops.
    Stopped(Stopped),
    /// The methods.
    Help,
}

/// The place of an event in its conference's journal, which begins with 1.
#[derive(Drop)]
pub struct Placed {
    pub place: u64,
}

/// A conference that was opened, and the numbers that it got.
#[derive(Drop)]
pub struct Opened {
    pub conference: u32,
    /// The users, in the order of the request.
    pub users: List<u16>,
    /// The floors, in the order of the request.
    pub floors: List<u16>,
}

/// Conferences, ascending.
#[derive(Drop)]
pub struct Conferences {
    pub conferences: List<ConferenceStanding>,
    /// Whether there are more behind them.
    pub more: bool,
}

/// How a conference stands.
#[derive(Drop)]
pub struct ConferenceStanding {
    pub conference: u32,
    pub title: Option<Text>,
    pub phase: Phase,
    /// How many members are live.
    pub members: u32,
    /// How many floor requests are ongoing.
    pub ongoing: u32,
    /// How many events there were.
    pub events: u32,
    /// Whether its events are kept in a file.
    pub kept: bool,
}

/// A user that was added.
#[derive(Drop)]
pub struct UserAdded {
    pub user: u16,
    pub place: u64,
}

/// A floor that was added, or whose chair was set.
#[derive(Drop)]
pub struct FloorChanged {
    pub floor: u16,
    pub place: u64,
}

/// A floor request that was made.
#[derive(Drop)]
pub struct Created {
    pub request: u16,
    pub status: RequestStatus,
    /// The queue position; 0 where it has none (RFC 8855, section 5.2.5).
    pub position: u16,
    pub place: u64,
}

/// Words that are kept beside a conference.
#[derive(Drop)]
pub struct WordsTold {
    pub words: List<Word>,
}

/// A word and what it is kept by.
#[derive(Drop)]
pub struct Word {
    pub key: Text,
    pub text: Text,
}

/// What is watched from now on.
#[derive(Drop)]
pub struct WatchedFrom {
    pub next: List<NextPlace>,
}

/// The place of a conference's next event.
#[derive(Drop)]
pub struct NextPlace {
    pub conference: u32,
    pub next: u64,
}

/// A part of a journal.
#[derive(Drop)]
pub struct JournalPart {
    pub entries: List<JournalEntry>,
    /// The place behind them.
    pub next: u64,
}

/// An event of a journal.
#[derive(Drop)]
pub struct JournalEntry {
    pub place: u64,
    /// When the server took it (RFC 3339, in milliseconds), where that is known.
    pub time: Option<Text>,
    /// The line by which the console prints it.
    pub line: Text,
}

/// How the server stands.
#[derive(Drop)]
pub struct ServerStanding {
    pub version: Text,
    /// When it began (RFC 3339, in milliseconds).
    pub since: Text,
    pub conferences: u64,
    pub connections: u64,
    /// The bytes of memory that it has.
    pub memory: u64,
    /// Whether it opens no conference any more.
    pub draining: bool,
}

/// What a server that stopped looked after.
#[derive(Drop)]
pub struct Stopped {
    /// How many members there ever were.
    pub seats: u64,
    /// How many events there were, over all conferences.
    pub events: u64,
}
