//! What control clients are answered and told of conferences, found by looking: nothing is changed here.
//!
//! RFC 8855 leaves open how a server is administered (section 3.1). Programs ask by the lines of `floor_rpc`; this crate
//! makes the answers and notifications out of what the server lends of a conference: its configuration, what is shown of
//! its floor requests, its members and its journal. It does no input or output. Carrying out what is asked is its
//! caller's.
#![tactic(auto)]

mod asking;
mod deciding;
mod event;
mod floor;
mod follower;
mod free;
mod holding;
mod journal;
mod known;
mod open;
mod opening;
mod picture;
mod refused;
mod request;
mod showing;
mod standing;
mod texts;
mod time;
mod times;
mod title;
mod words;

pub use asking::{created_of, creation_ask, decision_ask, message_of, reply_of};
pub use deciding::{Chair, chair_of};
pub use floor_rpc::{About, ErrorName, EventTold, Failure, Text, Why, Word};
pub use follower::Follower;
pub use free::{free_floor, free_user};
pub use journal::journal_of;
pub use known::Known;
pub use open::open_config;
pub use opening::{NewConference, conference_of, floor_of, opened_of, user_of};
pub use picture::picture_of;
pub use refused::Refused;
pub use request::{info_of, requester_of};
pub use showing::Showing;
pub use standing::standing_of;
pub use texts::text;
pub use time::time_of;
pub use title::{floor_key, titles_of};
pub use words::Words;
