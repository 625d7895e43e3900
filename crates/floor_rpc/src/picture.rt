//! A whole conference at one place of its journal.

use crate::answer::Word;
use crate::list::List;
use floor_config::Text;
use floor_message::RequestStatus;
use floor_room::Phase;

/// A whole conference, as it stands before the event at a place.
#[derive(Drop)]
pub struct Picture {
    /// The place of the next event.
    pub next: u64,
    pub phase: Phase,
    /// How many members are live.
    pub members: u32,
    /// How many floor requests are ongoing.
    pub ongoing: u32,
    pub title: Option<Text>,
    /// How many ongoing floor requests a user may have for one floor (RFC 8855, section 13.1).
    pub limit: u16,
    /// How many connections of one user are served at once.
    pub connections: u16,
    /// Whether its events are kept in a file.
    pub kept: bool,
    pub users: List<UserShown>,
    pub floors: List<FloorShown>,
    /// The ongoing floor requests, ascending.
    pub requests: List<RequestShown>,
    /// The words that are kept beside it.
    pub words: List<Word>,
}

/// A user and its live members.
#[derive(Drop)]
pub struct UserShown {
    pub user: u16,
    pub name: Option<Text>,
    pub uri: Option<Text>,
    pub proxy: bool,
    pub port: Option<u16>,
    /// Whether whoever comes as this user is refused.
    pub removed: bool,
    pub members: List<MemberShown>,
}

/// A live member.
#[derive(Drop)]
pub struct MemberShown {
    pub member: u32,
    /// How many messages it was told and hasn't taken whole.
    pub behind: u64,
    /// Whether it is told nothing any more, since it took too little.
    pub cut: bool,
    /// How many seconds it has been away, where it is.
    pub away: Option<u64>,
}

/// A floor and the floor requests for it.
#[derive(Drop)]
pub struct FloorShown {
    pub floor: u16,
    pub title: Option<Text>,
    /// How many floor requests may hold it at one time.
    pub room: u16,
    pub chair: Option<u16>,
    /// The floor requests that hold it, ascending.
    pub holders: List<u16>,
    /// Those that wait for it, in their order.
    pub waiting: List<u16>,
    /// Those of which its chair hasn't decided, ascending.
    pub pending: List<u16>,
}

/// A floor request as it is shown.
#[derive(Drop)]
pub struct RequestShown {
    pub request: u16,
    /// The beneficiary.
    pub user: u16,
    /// The requester, where it is another.
    pub by: Option<u16>,
    pub floors: List<FloorStatus>,
    pub status: RequestStatus,
    /// The queue position; 0 where it has none (RFC 8855, section 5.2.5).
    pub position: u16,
    /// From 0, the lowest, to 4 (section 5.2.4).
    pub priority: Option<u16>,
    /// What the requester said of it.
    pub info: Option<Text>,
    /// Why a chair decided so, in its own words.
    pub reason: Option<Text>,
    /// When it was made (RFC 3339, in milliseconds), where that is known.
    pub since: Option<Text>,
    /// When it was granted, where it was and that is known.
    pub granted: Option<Text>,
}

/// A floor of a floor request, and how that stands with it.
#[derive(Drop)]
pub struct FloorStatus {
    pub floor: u16,
    pub status: RequestStatus,
}
