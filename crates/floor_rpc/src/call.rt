//! What a program asks for: each method with its parameters.

use crate::list::List;
use floor_config::Text;

/// A method with its parameters.
#[derive(Drop)]
pub enum Call {
    /// `conference.open`
    ConferenceOpen(Opening),
    /// `conference.list`
    ConferenceList(Listing),
    /// `conference.get`
    ConferenceGet(OfConference),
    /// `conference.close`
    ConferenceClose(OfConference),
    /// `conference.forget`
    ConferenceForget(OfConference),
    /// `user.add`
    UserAdd(UserAddition),
    /// `floor.add`
    FloorAdd(FloorAddition),
    /// `floor.chair`
    FloorChair(ChairSetting),
    /// `member.remove`
    MemberRemove(Removal),
    /// `user.admit`
    UserAdmit(OfUser),
    /// `request.create`
    RequestCreate(Creation),
    /// `request.release`
    RequestRelease(Release),
    /// `request.accept`
    RequestAccept(Decision),
    /// `request.grant`
    RequestGrant(Decision),
    /// `request.deny`
    RequestDeny(Decision),
    /// `request.revoke`
    RequestRevoke(OfRequest),
    /// `word.set`
    WordSet(WordSetting),
    /// `word.get`
    WordGet(WordsOf),
    /// `watch`
    Watch(Watching),
    /// `unwatch`
    Unwatch(Unwatching),
    /// `journal`
    Journal(JournalFrom),
    /// `server.status`
    ServerStatus,
    /// `server.drain`
    ServerDrain,
    /// `server.stop`
    ServerStop,
    /// `help`
    Help,
}

/// A conference that is to be opened.
#[derive(Drop)]
pub enum Opening {
    /// The text of a configuration of one conference, as TOML.
    Toml(Text),
    /// Its parts.
    Parts(Parts),
}

/// The parts of a conference that is to be opened. What isn't given is the server's to choose.
#[derive(Drop)]
pub struct Parts {
    /// The Conference ID (RFC 8855, section 5.1).
    pub id: Option<u32>,
    /// What people call the conference.
    pub title: Option<Text>,
    /// How many ongoing floor requests a user may have for one floor (section 13.1).
    pub limit: Option<u16>,
    /// How many connections of one user are served at once.
    pub connections: Option<u16>,
    /// The users, in order.
    pub users: List<NewUser>,
    /// The floors, in order.
    pub floors: List<NewFloor>,
}

/// A user that is to be added. What isn't given is the server's to choose, or isn't there.
#[derive(Drop)]
pub struct NewUser {
    /// The User ID (RFC 8855, section 5.1).
    pub id: Option<u16>,
    /// What USER-DISPLAY-NAME shows of the user (section 5.2.12).
    pub name: Option<Text>,
    /// What USER-URI shows of the user (section 5.2.13).
    pub uri: Option<Text>,
    /// Whether the user may ask for floors on behalf of others (section 5.2.1); not, where it isn't said.
    pub proxy: bool,
    /// The TCP port at which whoever connects is this user.
    pub port: Option<u16>,
}

/// A floor that is to be added. What isn't given is the server's to choose, or isn't there.
#[derive(Drop)]
pub struct NewFloor {
    /// The Floor ID (RFC 8855, section 5.2.2).
    pub id: Option<u16>,
    /// How many floor requests may hold the floor at one time.
    pub room: Option<u16>,
    /// The User ID of the floor's chair (section 4.2).
    pub chair: Option<u16>,
    /// What people call the floor.
    pub title: Option<Text>,
}

/// Which conferences are to be told.
#[derive(Drop)]
pub enum Listing {
    /// The first ones.
    First,
    /// This one alone.
    Only(u32),
    /// Those behind this one.
    After(u32),
}

/// A conference.
#[derive(Drop)]
pub struct OfConference {
    pub conference: u32,
}

/// A user that is to be added to a conference.
#[derive(Drop)]
pub struct UserAddition {
    pub conference: u32,
    pub user: NewUser,
}

/// A floor that is to be added to a conference.
#[derive(Drop)]
pub struct FloorAddition {
    pub conference: u32,
    pub floor: NewFloor,
}

/// A floor that is to have this chair, or none.
#[derive(Drop)]
pub struct ChairSetting {
    pub conference: u32,
    pub floor: u16,
    pub chair: Option<u16>,
}

/// Who is to be shown out of a conference.
#[derive(Drop)]
pub struct Removal {
    pub conference: u32,
    pub whom: Whom,
}

/// A member, or a user with all its members.
#[derive(Drop)]
pub enum Whom {
    /// The member of this number.
    Member(u32),
    /// All members of this user, who is not to come back.
    User(u16),
}

/// A user of a conference.
#[derive(Drop)]
pub struct OfUser {
    pub conference: u32,
    pub user: u16,
}

/// A floor request that is to be made (RFC 8855, section 5.3.1).
#[derive(Drop)]
pub struct Creation {
    pub conference: u32,
    /// The beneficiary.
    pub beneficiary: u16,
    /// The floors.
    pub floors: List<u16>,
    /// The priority, from 0, the lowest, to 4 (section 5.2.4).
    pub priority: Option<u16>,
    /// What PARTICIPANT-PROVIDED-INFO says (section 5.2.7).
    pub info: Option<Text>,
    /// The requester, where it isn't the beneficiary.
    pub by: Option<u16>,
}

/// A floor request that is to be released (RFC 8855, section 5.3.2).
#[derive(Drop)]
pub struct Release {
    pub conference: u32,
    pub request: u16,
    /// Who releases it, where it isn't the requester.
    pub by: Option<u16>,
}

/// What a chair decides of a floor request (RFC 8855, section 5.3.9).
#[derive(Drop)]
pub struct Decision {
    pub conference: u32,
    pub request: u16,
    /// The floors of which it is decided. Where they aren't given, those of the request that the chair has.
    pub floors: Option<List<u16>>,
    /// What STATUS-INFO says (section 5.2.9).
    pub reason: Option<Text>,
    /// The chair, where it isn't the one of those floors.
    pub by: Option<u16>,
}

/// A floor request of a conference.
#[derive(Drop)]
pub struct OfRequest {
    pub conference: u32,
    pub request: u16,
}

/// A word that is to be kept beside a conference.
#[derive(Drop)]
pub struct WordSetting {
    pub conference: u32,
    /// What it is kept by.
    pub key: Text,
    /// The word; `None` takes away what is kept by the key.
    pub text: Option<Text>,
}

/// The words that are kept beside a conference, or the one of a key.
#[derive(Drop)]
pub struct WordsOf {
    pub conference: u32,
    pub key: Option<Text>,
}

/// What is to be watched.
#[derive(Drop)]
pub struct Watching {
    /// These conferences.
    pub conferences: List<Watched>,
    /// All others too, and those that are opened later.
    pub all: bool,
}

/// A conference that is to be watched.
#[derive(Drop)]
pub struct Watched {
    pub conference: u32,
    /// The first place that is to be told; the next one, where it isn't given.
    pub from: Option<u64>,
}

/// What is to be watched no more.
#[derive(Drop)]
pub struct Unwatching {
    /// These conferences.
    pub conferences: List<OfConference>,
    /// All others too.
    pub all: bool,
}

/// What happened in a conference.
#[derive(Drop)]
pub struct JournalFrom {
    pub conference: u32,
    /// The first place that is to be told; the first one, where it isn't given.
    pub from: Option<u64>,
    /// How many places are to be told at most.
    pub count: Option<u64>,
}
