//! Requests, answers and notifications by which programs administer a floor control server, as values:
//! JSON-RPC 2.0, one value a line.
//!
//! RFC 8855 leaves open how a server is administered (section 3.1), so the methods are our choice. A line is
//! read as a request by `read_request`, and a request, an answer or a notification is written as a line by
//! `write_line`. JSON itself is the crate `json`'s; what is refused elsewhere has its error here by the same
//! name. The crate knows no socket and no conference: who may call a method, what it does, and whom a
//! notification is told are its caller's.
#![tactic(auto)]

mod answer;
mod answer_json;
mod call;
mod call_json;
mod error;
mod failure;
mod fault;
mod id;
mod laws;
mod line;
mod list;
mod lists;
mod method;
mod names;
mod notification;
mod notification_json;
mod params;
mod picture;
mod picture_json;
mod reading;
mod request;
mod response;
mod response_json;
#[cfg(test)]
mod tests;
mod value;
mod words;

pub use answer::{
    Answer, ConferenceStanding, Conferences, Created, FloorChanged, JournalEntry, JournalPart,
    NextPlace, Opened, Placed, ServerStanding, Stopped, UserAdded, WatchedFrom, Word, WordsTold,
};
pub use call::{
    Call, ChairSetting, Creation, Decision, FloorAddition, JournalFrom, Listing, NewFloor, NewUser,
    OfConference, OfRequest, OfUser, Opening, Parts, Release, Removal, Unwatching, UserAddition,
    Watched, Watching, Whom, WordSetting, WordsOf,
};
pub use error::{ERRORS, ErrorName};
pub use failure::{About, Failure};
pub use fault::{RequestFault, Why};
pub use floor_config::{ConfigFault, Text};
pub use floor_console::BoardRefusal;
pub use floor_machine::Refusal;
pub use floor_message::{Primitive, RequestStatus};
pub use floor_room::{Phase, RoomRefusal};
pub use id::{Id, Numeral};
pub use json::Scratch;
pub use laws::{error_names_are_their_own, error_numbers_are_their_own, requests_are_read_back};
pub use line::write_line;
pub use list::List;
pub use method::{METHODS, Method, method_named};
pub use notification::{
    ChairTold, EventTold, FloorHolders, FloorTold, Happened, Holder, MemberOf, MessageOf,
    Notification, RevokedTold, ServerTold, UserOf, UserTold, What, WordTold,
};
pub use picture::{FloorShown, FloorStatus, MemberShown, Picture, RequestShown, UserShown};
pub use request::{MAX_ID, MAX_LINE, Received, Request, read_request};
pub use response::Response;
pub use value::ToJson;
