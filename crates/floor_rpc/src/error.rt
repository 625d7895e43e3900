//! Errors: their numbers and their names.

ghost use Rattle.std.specs.Prelude.{◌≡◌};
ghost use Rattle.floor_rpc.specs.Errors.{name_of, number_of};

/// Why a request isn't carried out. A number is never given to another name.
#[derive(Clone, Copy, Debug, PartialEq, Eq)]
pub enum ErrorName {
    /// The line isn't UTF-8, or is no JSON.
    NotJson,
    /// It is JSON, and no request.
    NotRequest,
    /// No method has the name.
    NoMethod,
    /// A parameter can't be taken.
    BadParams,
    /// No conference has the number.
    NoConference,
    /// The conference was closed.
    Ended,
    /// The conference was forgotten.
    Forgotten,
    /// The conference hasn't ended, or a connection is of it.
    Running,
    /// Want of memory has broken off the conference.
    Broken,
    /// The server drains: it opens no conference any more.
    Draining,
    /// An observer may not call the method.
    Forbidden,
    /// There are as many as the server serves: of clients, of members or of floor requests.
    Full,
    /// A line is too long.
    TooLong,
    /// Memory was refused.
    Memory,
    /// The number is, or was, another conference's.
    Used,
    /// The conference's journal is full.
    JournalFull,
    /// The conference has no user of the number (RFC 8855, section 5.2.6, error code 2).
    NoUser,
    /// The conference has no live member of the number.
    NoMember,
    /// The conference has no floor of the number (error code 6).
    NoFloor,
    /// The conference has no ongoing floor request of the number (error code 7).
    NoRequest,
    /// The user may not do it (error code 5).
    Unauthorized,
    /// The user has as many ongoing floor requests for a floor as it may (error code 8).
    TooManyRequests,
    /// The floor request stands otherwise (error code 14).
    NotNow,
    /// The user was shown out.
    Removed,
    /// The client watches the conference already.
    Watching,
    /// The place is 0, or is behind the next one.
    BadPlace,
    /// A number or a text of a configuration is out of its range.
    OutOfRange,
    /// Two users have one number.
    DoubleUser,
    /// Two floors have one number.
    DoubleFloor,
    /// Two conferences have one number.
    DoubleConference,
    /// Two users have one port.
    DoublePort,
    /// A chair is no user of the conference.
    UnknownChair,
    /// A configuration is no TOML.
    Syntax,
    /// A configuration lacks a key.
    MissingKey,
    /// A value of a configuration is of another type.
    WrongType,
    /// A port can't be listened at.
    CannotListen,
    /// A file can't be read.
    CannotRead,
    /// A conference's events can't be kept.
    CannotKeep,
    /// The member takes too little of what it is told.
    Cut,
    /// More was acknowledged than was told.
    BadCount,
}

/// All of them, in the order of their numbers behind JSON-RPC's own.
pub static ERRORS: [ErrorName; 40] = [
    ErrorName::NotJson,
    ErrorName::NotRequest,
    ErrorName::NoMethod,
    ErrorName::BadParams,
    ErrorName::NoConference,
    ErrorName::Ended,
    ErrorName::Forgotten,
    ErrorName::Running,
    ErrorName::Broken,
    ErrorName::Draining,
    ErrorName::Forbidden,
    ErrorName::Full,
    ErrorName::TooLong,
    ErrorName::Memory,
    ErrorName::Used,
    ErrorName::JournalFull,
    ErrorName::NoUser,
    ErrorName::NoMember,
    ErrorName::NoFloor,
    ErrorName::NoRequest,
    ErrorName::Unauthorized,
    ErrorName::TooManyRequests,
    ErrorName::NotNow,
    ErrorName::Removed,
    ErrorName::Watching,
    ErrorName::BadPlace,
    ErrorName::OutOfRange,
    ErrorName::DoubleUser,
    ErrorName::DoubleFloor,
    ErrorName::DoubleConference,
    ErrorName::DoublePort,
    ErrorName::UnknownChair,
    ErrorName::Syntax,
    ErrorName::MissingKey,
    ErrorName::WrongType,
    ErrorName::CannotListen,
    ErrorName::CannotRead,
    ErrorName::CannotKeep,
    ErrorName::Cut,
    ErrorName::BadCount,
];

impl ErrorName {
    /// The number that a program tells it by. Takes no memory.
    pub fn number(self) -> i64
        ensures value { result ≡ number_of self }
    {
        match self {
            ErrorName::NotJson => -32700,
            ErrorName::NotRequest => -32600,
            ErrorName::NoMethod => -32601,
            ErrorName::BadParams => -32602,
            ErrorName::NoConference => 1,
            ErrorName::Ended => 2,
            ErrorName::Forgotten => 3,
            ErrorName::Running => 4,
            ErrorName::Broken => 5,
            ErrorName::Draining => 6,
            ErrorName::Forbidden => 7,
            ErrorName::Full => 8,
            ErrorName::TooLong => 9,
            ErrorName::Memory => 10,
            ErrorName::Used => 11,
            ErrorName::JournalFull => 12,
            ErrorName::NoUser => 13,
            ErrorName::NoMember => 14,
            ErrorName::NoFloor => 15,
            ErrorName::NoRequest => 16,
            ErrorName::Unauthorized => 17,
            ErrorName::TooManyRequests => 18,
            ErrorName::NotNow => 19,
            ErrorName::Removed => 20,
            ErrorName::Watching => 21,
            ErrorName::BadPlace => 22,
            ErrorName::OutOfRange => 23,
            ErrorName::DoubleUser => 24,
            ErrorName::DoubleFloor => 25,
            ErrorName::DoubleConference => 26,
            ErrorName::DoublePort => 27,
            ErrorName::UnknownChair => 28,
            ErrorName::Syntax => 29,
            ErrorName::MissingKey => 30,
            ErrorName::WrongType => 31,
            ErrorName::CannotListen => 32,
            ErrorName::CannotRead => 33,
            ErrorName::CannotKeep => 34,
            ErrorName::Cut => 35,
            ErrorName::BadCount => 36,
        }
    }

    /// The name that its message is. Takes no memory.
    pub fn name(self) -> &'static str
        ensures value { result.now ≡ name_of self }
    {
        match self {
            ErrorName::NotJson => "Parse error",
            ErrorName::NotRequest => "Invalid Request",
            ErrorName::NoMethod => "Method not found",
            ErrorName::BadParams => "Invalid params",
            ErrorName::NoConference => "NoConference",
            ErrorName::Ended => "Ended",
            ErrorName::Forgotten => "Forgotten",
            ErrorName::Running => "Running",
            ErrorName::Broken => "Broken",
            ErrorName::Draining => "Draining",
            ErrorName::Forbidden => "Forbidden",
            ErrorName::Full => "Full",
            ErrorName::TooLong => "TooLong",
            ErrorName::Memory => "Memory",
            ErrorName::Used => "Used",
            ErrorName::JournalFull => "JournalFull",
            ErrorName::NoUser => "NoUser",
            ErrorName::NoMember => "NoMember",
            ErrorName::NoFloor => "NoFloor",
            ErrorName::NoRequest => "NoRequest",
            ErrorName::Unauthorized => "Unauthorized",
            ErrorName::TooManyRequests => "TooManyRequests",
            ErrorName::NotNow => "NotNow",
            ErrorName::Removed => "Removed",
            ErrorName::Watching => "Watching",
            ErrorName::BadPlace => "BadPlace",
            ErrorName::OutOfRange => "OutOfRange",
            ErrorName::DoubleUser => "DoubleUser",
            ErrorName::DoubleFloor => "DoubleFloor",
            ErrorName::DoubleConference => "DoubleConference",
            ErrorName::DoublePort => "DoublePort",
            ErrorName::UnknownChair => "UnknownChair",
            ErrorName::Syntax => "Syntax",
            ErrorName::MissingKey => "MissingKey",
            ErrorName::WrongType => "WrongType",
            ErrorName::CannotListen => "CannotListen",
            ErrorName::CannotRead => "CannotRead",
            ErrorName::CannotKeep => "CannotKeep",
            ErrorName::Cut => "Cut",
            ErrorName::BadCount => "BadCount",
        }
    }
}
