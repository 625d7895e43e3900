//! The methods: their names, their parameters, and which of them an observer may call.

ghost use Rattle.std.specs.Prelude.{◌≡◌, find, map};
ghost use Rattle.std.specs.Str.{bytes_eq};
ghost use Rattle.floor_rpc.specs.Methods.{methods, name_of, parameters_of, is_observing};

/// A method.
#[derive(Clone, Copy, Debug, PartialEq, Eq)]
pub enum Method {
    ConferenceOpen,
    ConferenceList,
    ConferenceGet,
    ConferenceClose,
    ConferenceForget,
    UserAdd,
    FloorAdd,
    FloorChair,
    MemberRemove,
    UserAdmit,
    RequestCreate,
    RequestRelease,
    RequestAccept,
    RequestGrant,
    RequestDeny,
    RequestRevoke,
    WordSet,
    WordGet,
    Watch,
    Unwatch,
    Journal,
    ServerStatus,
    ServerDrain,
    ServerStop,
    Help,
}

/// The methods, in the order in which `help` tells them.
pub static METHODS: [Method; 25] = [
    Method::ConferenceOpen,
    Method::ConferenceList,
    Method::ConferenceGet,
    Method::ConferenceClose,
    Method::ConferenceForget,
    Method::UserAdd,
    Method::FloorAdd,
    Method::FloorChair,
    Method::MemberRemove,
    Method::UserAdmit,
    Method::RequestCreate,
    Method::RequestRelease,
    Method::RequestAccept,
    Method::RequestGrant,
    Method::RequestDeny,
    Method::RequestRevoke,
    Method::WordSet,
    Method::WordGet,
    Method::Watch,
    Method::Unwatch,
    Method::Journal,
    Method::ServerStatus,
    Method::ServerDrain,
    Method::ServerStop,
    Method::Help,
];

impl Method {
    /// The name by which a request calls it. Takes no memory.
    pub fn name(&self) -> &'static str
        ensures value { result.now ≡ name_of self.now }
    {
        match self {
            Method::ConferenceOpen => "conference.open",
            Method::ConferenceList => "conference.list",
            Method::ConferenceGet => "conference.get",
            Method::ConferenceClose => "conference.close",
            Method::ConferenceForget => "conference.forget",
            Method::UserAdd => "user.add",
            Method::FloorAdd => "floor.add",
            Method::FloorChair => "floor.chair",
            Method::MemberRemove => "member.remove",
            Method::UserAdmit => "user.admit",
            Method::RequestCreate => "request.create",
            Method::RequestRelease => "request.release",
            Method::RequestAccept => "request.accept",
            Method::RequestGrant => "request.grant",
            Method::RequestDeny => "request.deny",
            Method::RequestRevoke => "request.revoke",
            Method::WordSet => "word.set",
            Method::WordGet => "word.get",
            Method::Watch => "watch",
            Method::Unwatch => "unwatch",
            Method::Journal => "journal",
            Method::ServerStatus => "server.status",
            Method::ServerDrain => "server.drain",
            Method::ServerStop => "server.stop",
            Method::Help => "help",
        }
    }

    /// The names of its parameters, in order. Takes no memory.
    pub fn parameters(&self) -> &'static [&'static str]
        ensures value { map (λ name. name.now) result.now ≡ parameters_of self.now }
    {
        match self {
            Method::ConferenceOpen => &[
                "id",
                "title",
                "limit",
                "connections",
                "users",
                "floors",
                "toml",
            ],
            Method::ConferenceList => &["conference", "after"],
            Method::ConferenceGet | Method::ConferenceClose | Method::ConferenceForget => &[
                "conference",
            ],
            Method::UserAdd => &["conference", "id", "name", "uri", "proxy", "port"],
            Method::FloorAdd => &["conference", "id", "room", "chair", "title"],
            Method::FloorChair => &["conference", "floor", "chair"],
            Method::MemberRemove => &["conference", "member", "user"],
            Method::UserAdmit => &["conference", "user"],
            Method::RequestCreate => &["conference", "for", "floors", "priority", "info", "by"],
            Method::RequestRelease => &["conference", "request", "by"],
            Method::RequestAccept | Method::RequestGrant | Method::RequestDeny => &[
                "conference",
                "request",
                "floors",
                "reason",
                "by",
            ],
            Method::RequestRevoke => &["conference", "request"],
            Method::WordSet => &["conference", "key", "text"],
            Method::WordGet => &["conference", "key"],
            Method::Watch | Method::Unwatch => &["conferences", "all"],
            Method::Journal => &["conference", "from", "count"],
            Method::ServerStatus | Method::ServerDrain | Method::ServerStop | Method::Help => &[],
        }
    }

    /// Whether an observer may call it: it changes nothing. Takes no memory.
    pub fn is_observing(&self) -> bool
        ensures value { result ≡ is_observing self.now }
    {
        matches!(
            self,
            Method::ConferenceList
                | Method::ConferenceGet
                | Method::Watch
                | Method::Unwatch
                | Method::Journal
                | Method::ServerStatus
                | Method::Help
        )
    }
}

/// The method of this name. Takes no memory.
pub fn method_named(name: &str) -> Option<Method>
    ensures value { result ≡ find (λ m. bytes_eq (name_of m) name.now) methods }
{
    METHODS.iter().copied().find(|method| method.name() == name)
}
