//! What is told to whoever watches a conference.

use crate::list::List;
use crate::picture::RequestShown;
use floor_config::Text;
use floor_message::Primitive;

/// What is told to a client that watches.
#[derive(Drop)]
pub enum Notification {
    /// What an event of a conference shows.
    Event(EventTold),
    /// What happened that is no event of the conference.
    Server(ServerTold),
}

/// What an event of a conference shows.
#[derive(Drop)]
pub struct EventTold {
    pub conference: u32,
    /// Its place in the journal.
    pub place: u64,
    /// When the server took it (RFC 3339, in milliseconds), where that is known.
    pub time: Option<Text>,
    pub what: What,
    /// Each floor request that is shown otherwise, as it is shown behind the event, ascending.
    pub requests: List<RequestShown>,
    /// Each member that it cut, ascending.
    pub cut: List<MemberOf>,
    /// Each floor whose holders it changed, with those of now.
    pub floors: List<FloorHolders>,
}

/// What an event is.
#[derive(Drop)]
pub enum What {
    /// A member joined.
    Joined(MemberOf),
    /// A member left.
    Left(MemberOf),
    /// A member, or somebody for a user, sent a message.
    Message(MessageOf),
    /// The conference was closed.
    Closed,
    /// A user was added.
    User(UserTold),
    /// A floor was added.
    Floor(FloorTold),
    /// A floor got a chair, or lost it.
    Chair(ChairTold),
    /// A floor request was revoked by the administrator.
    Revoked(RevokedTold),
}

/// A member and its user.
#[derive(Drop)]
pub struct MemberOf {
    pub member: u32,
    pub user: u16,
}

/// A message that was sent.
#[derive(Drop)]
pub struct MessageOf {
    /// The member that sent it; `None` where it was said for the user.
    pub member: Option<u32>,
    pub user: u16,
    pub primitive: Primitive,
    /// The floor request that it names or made.
    pub request: Option<u16>,
}

/// A user that was added.
#[derive(Drop)]
pub struct UserTold {
    pub user: u16,
    pub name: Option<Text>,
    pub uri: Option<Text>,
    pub proxy: bool,
    pub port: Option<u16>,
}

/// A floor that was added.
#[derive(Drop)]
pub struct FloorTold {
    pub floor: u16,
    pub room: u16,
    pub chair: Option<u16>,
}

/// A floor's chair.
#[derive(Drop)]
pub struct ChairTold {
    pub floor: u16,
    pub chair: Option<u16>,
}

/// A floor request that was revoked.
#[derive(Drop)]
pub struct RevokedTold {
    pub request: u16,
}

/// A floor, and who holds it.
#[derive(Drop)]
pub struct FloorHolders {
    pub floor: u16,
    pub holders: List<Holder>,
}

/// A floor request that holds a floor, and its beneficiary.
#[derive(Drop)]
pub struct Holder {
    pub request: u16,
    pub user: u16,
}

/// What happened beside the events of a conference.
#[derive(Drop)]
pub struct ServerTold {
    pub conference: u32,
    pub what: Happened,
}

/// What happened beside the events.
#[derive(Drop)]
pub enum Happened {
    /// The conference was opened.
    Opened,
    /// It was forgotten.
    Forgotten,
    /// Want of memory broke it off.
    Broken,
    /// Its events aren't kept any more.
    Unkept,
    /// A word was set, or taken away. It may be another's secret: observers aren't told.
    Word(WordTold),
    /// A member lost its connection.
    Away(MemberOf),
    /// It has one again.
    Back(MemberOf),
    /// Whoever comes as this user is refused.
    Removed(UserOf),
    /// Whoever comes as this user isn't refused any more.
    Admitted(UserOf),
}

/// A word that was set; without a text it was taken away.
#[derive(Drop)]
pub struct WordTold {
    pub key: Text,
    pub text: Option<Text>,
}

/// A user.
#[derive(Drop)]
pub struct UserOf {
    pub user: u16,
}
