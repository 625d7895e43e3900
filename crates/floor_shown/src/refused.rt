//! Why a request isn't carried out: which error each refusal is, as one table.

ghost use Rattle.std.specs.Prelude.{◌≡◌};
ghost use Rattle.floor_rpc.specs.declared.failure.About.TheVariants as about;
ghost use Rattle.floor_shown.specs.Errors.{IsErrorOf, about_refusal, is_of_asked, name_of};

use floor_hub::{HubRefusal, Refusal, RoomRefusal};
use floor_rpc::{About, ErrorName, Failure, Text, Why};
use std::alloc::{AllocError, AllocFailed, Global};

/// Why a request isn't carried out.
#[derive(Drop)]
pub struct Refused {
    pub failure: Failure,
}

impl From<AllocError> for Refused {
    fn from(_e: AllocError) -> Refused {
        Refused::whole(ErrorName::Memory)
    }
}

impl<T: Drop> From<AllocFailed<T>> for Refused {
    fn from(_e: AllocFailed<T>) -> Refused {
        Refused::whole(ErrorName::Memory)
    }
}

impl Refused {
    /// This error, of the request as a whole.
    pub fn whole(name: ErrorName) -> Refused
        ensures value { result.failure ≡ record { name = name; about = about.All } }
    {
        Refused {
            failure: Failure::whole(name),
        }
    }

    /// This error, which is about this.
    pub fn of(name: ErrorName, about: About) -> Refused
        ensures value { result.failure ≡ record { name = name; about = about } }
    {
        Refused {
            failure: Failure { name, about },
        }
    }

    /// A parameter can't be taken.
    pub fn param(alloc: Global, name: &str, why: Why) -> Refused {
        match String::from_str(alloc, name) {
            Ok(string) => Refused::of(
                ErrorName::BadParams,
                About::Param {
                    param: Some(Text::from_string(string)),
                    why,
                },
            ),
            Err(_) => Refused::whole(ErrorName::Memory),
        }
    }

    /// A refusal of the hub's, of this conference. What is wrong with what was asked is about that.
    pub fn by_hub(refusal: HubRefusal, conference: u32, asked: About) -> Refused
        ensures name { IsErrorOf refusal result.failure.name }
        ensures about { result.failure.about ≡ about_refusal conference asked refusal }
    {
        Refused::of(error_of(refusal), about_refusal(refusal, conference, asked))
    }

    /// A refusal of the hub's, of a conference as a whole.
    pub fn of_conference(refusal: HubRefusal, conference: u32) -> Refused
        ensures name { IsErrorOf refusal result.failure.name }
        ensures about { result.failure.about ≡ about_refusal conference about.All refusal }
    {
        Refused::by_hub(refusal, conference, About::All)
    }

    /// What answers a message as an Error of this code (RFC 8855, section 5.2.6), which is the event of this place.
    pub(crate) fn by_code(code: u8, place: u64) -> Refused
        ensures value { result.failure ≡ record { name = name_of code; about = about.Place place } }
    {
        Refused::of(name_of(code), About::Place(place))
    }
}

/// The error of a refusal of the hub's.
fn error_of(refusal: HubRefusal) -> ErrorName
    ensures value { IsErrorOf refusal result }
{
    match refusal {
        HubRefusal::Used => ErrorName::Used,
        HubRefusal::NoConference => ErrorName::NoConference,
        HubRefusal::Forgotten => ErrorName::Forgotten,
        HubRefusal::Running => ErrorName::Running,
        HubRefusal::NoConnection => ErrorName::NoMember,
        // What is said is one message, so that this isn't answered.
        HubRefusal::BadMessage => ErrorName::NotNow,
        HubRefusal::Memory => ErrorName::Memory,
        HubRefusal::ByRoom(refusal) => ErrorName::of_room(refusal),
    }
}

/// What a refusal is about: what was asked, where that is refused, else the conference.
fn about_refusal(refusal: HubRefusal, conference: u32, asked: About) -> About
    ensures value { result ≡ about_refusal conference asked refusal }
{
    match refusal {
        HubRefusal::ByRoom(RoomRefusal::Refused(refusal)) if is_of_asked(refusal) => asked,
        _ => About::Conference(conference),
    }
}

/// Whether a refusal of the machine's is of what was asked, and not of the conference.
fn is_of_asked(refusal: Refusal) -> bool
    ensures value { result ≡ is_of_asked refusal }
{
    match refusal {
        Refusal::NoMember
        | Refusal::NoUser
        | Refusal::NoRequest
        | Refusal::OutOfRange
        | Refusal::DoubleUser
        | Refusal::DoubleFloor
        | Refusal::NoFloor
        | Refusal::UnknownChair => true,
        Refusal::Broken
        | Refusal::Ended
        | Refusal::Full
        | Refusal::Cut
        | Refusal::BadCount
        | Refusal::Memory => false,
    }
}

/// The error of an error code (RFC 8855, section 5.2.6).
fn name_of(code: u8) -> ErrorName
    ensures value { result ≡ name_of code }
{
    match code {
        2 => ErrorName::NoUser,
        5 => ErrorName::Unauthorized,
        6 => ErrorName::NoFloor,
        7 => ErrorName::NoRequest,
        8 => ErrorName::TooManyRequests,
        _ => ErrorName::NotNow,
    }
}
