//! Why a request isn't carried out, and what that is about.

ghost use Rattle.std.specs.Prelude.{◌≡◌};
ghost use Rattle.floor_config.specs.Names as configuration;
ghost use Rattle.floor_console.specs.Names as console;
ghost use Rattle.floor_machine.specs.Names as machine;
ghost use Rattle.floor_room.specs.Names as room;
ghost use Rattle.floor_rpc.specs.Errors.{name_of};
ghost use Rattle.floor_rpc.specs.Failures.{failure_of};

use crate::error::ErrorName;
use crate::fault::{RequestFault, Why};
use floor_config::{ConfigFault, Text};
use floor_console::BoardRefusal;
use floor_machine::Refusal;
use floor_room::RoomRefusal;

/// Why a request isn't carried out, and what that is about.
#[derive(Drop)]
pub struct Failure {
    pub name: ErrorName,
    pub about: About,
}

/// What an error is about.
#[derive(Drop)]
pub enum About {
    /// The request as a whole.
    All,
    /// A parameter; `None` for the parameters as a whole.
    Param { param: Option<Text>, why: Why },
    /// A conference.
    Conference(u32),
    /// A user.
    User(u16),
    /// A member.
    Member(u32),
    /// A floor.
    Floor(u16),
    /// A floor request.
    Request(u16),
    /// The place of the event that was answered so.
    Place(u64),
    /// A line of a configuration, from 1 on.
    Line(u64),
}

impl Failure {
    /// The error of a line that is no request.
    pub fn of_fault(fault: RequestFault) -> Failure
        ensures value { result ≡ failure_of fault }
    {
        match fault {
            RequestFault::TooLong => Failure::whole(ErrorName::TooLong),
            RequestFault::NotJson => Failure::whole(ErrorName::NotJson),
            RequestFault::NotRequest => Failure::whole(ErrorName::NotRequest),
            RequestFault::NoMethod => Failure::whole(ErrorName::NoMethod),
            RequestFault::BadParam { param, why } => Failure {
                name: ErrorName::BadParams,
                about: About::Param { param, why },
            },
            RequestFault::Memory => Failure::whole(ErrorName::Memory),
        }
    }

    /// An error that is about the request as a whole.
    pub fn whole(name: ErrorName) -> Failure
        ensures value { result ≡ record { name = name; about = About.All } }
    {
        Failure {
            name,
            about: About::All,
        }
    }
}

impl ErrorName {
    /// The error that has the name of a machine's refusal.
    pub fn of_machine(refusal: Refusal) -> ErrorName
        ensures value { name_of result ≡ machine.name_of refusal }
    {
        match refusal {
            Refusal::Broken => ErrorName::Broken,
            Refusal::Ended => ErrorName::Ended,
            Refusal::NoMember => ErrorName::NoMember,
            Refusal::NoUser => ErrorName::NoUser,
            Refusal::Full => ErrorName::Full,
            Refusal::NoRequest => ErrorName::NoRequest,
            Refusal::Cut => ErrorName::Cut,
            Refusal::BadCount => ErrorName::BadCount,
            Refusal::OutOfRange => ErrorName::OutOfRange,
            Refusal::DoubleUser => ErrorName::DoubleUser,
            Refusal::DoubleFloor => ErrorName::DoubleFloor,
            Refusal::NoFloor => ErrorName::NoFloor,
            Refusal::UnknownChair => ErrorName::UnknownChair,
            Refusal::Memory => ErrorName::Memory,
        }
    }

    /// The error that has the name of a room's refusal.
    pub fn of_room(refusal: RoomRefusal) -> ErrorName
        ensures value { name_of result ≡ room.name_of refusal }
    {
        match refusal {
            RoomRefusal::JournalFull => ErrorName::JournalFull,
            RoomRefusal::Refused(refusal) => ErrorName::of_machine(refusal),
        }
    }

    /// The error that has the name of what is wrong with a configuration.
    pub fn of_configuration(fault: ConfigFault) -> ErrorName
        ensures value { name_of result ≡ configuration.name_of fault }
    {
        match fault {
            ConfigFault::Syntax => ErrorName::Syntax,
            ConfigFault::MissingKey => ErrorName::MissingKey,
            ConfigFault::WrongType => ErrorName::WrongType,
            ConfigFault::OutOfRange => ErrorName::OutOfRange,
            ConfigFault::DoubleUser => ErrorName::DoubleUser,
            ConfigFault::DoubleFloor => ErrorName::DoubleFloor,
            ConfigFault::NoFloor => ErrorName::NoFloor,
            ConfigFault::UnknownChair => ErrorName::UnknownChair,
            ConfigFault::DoubleConference => ErrorName::DoubleConference,
            ConfigFault::DoublePort => ErrorName::DoublePort,
            ConfigFault::Memory => ErrorName::Memory,
        }
    }

    /// The error that has the name of a board's refusal.
    pub fn of_board(refusal: BoardRefusal) -> ErrorName
        ensures value { name_of result ≡ console.name_of_refusal refusal }
    {
        match refusal {
            BoardRefusal::NoConference => ErrorName::NoConference,
            BoardRefusal::ByRoom(refusal) => ErrorName::of_room(refusal),
            BoardRefusal::CannotRead => ErrorName::CannotRead,
            BoardRefusal::ByConfiguration(fault) => ErrorName::of_configuration(fault),
            BoardRefusal::CannotListen => ErrorName::CannotListen,
            BoardRefusal::Used => ErrorName::Used,
            BoardRefusal::Memory => ErrorName::Memory,
        }
    }
}
