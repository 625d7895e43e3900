//! All conferences at once: each step is for one of them, and the others don't notice it.
//!
//! It stands on the rooms of floor_room and on the framer of floor_wire, does no input or output,
//! and waits for nothing. Whoever calls it binds each connection to a conference and a user.
#![tactic(auto)]

mod attached;
mod concerned;
mod connection;
mod connections;
mod forgotten;
mod gathering;
mod hub;
mod laws;
mod news;
mod refusal;
mod rooms;
mod running;
mod step;
mod transcript;

pub use attached::Live;
pub use connection::{ConnNo, Place};
pub use floor_room::{
    Act, AddedUser, Config, Event, Floor, Frame, Info, Parcel, Refusal, RoomRefusal, Said,
    SharedInfo, Status, User,
};
pub use floor_wire::Octets;
pub use hub::Hub;
pub use laws::{
    arrivals_fit, conference_alone, each_journal_is_resumed, each_journal_is_run, headline,
    kept_worlds, step_adds, two_worlds,
};
pub use news::News;
pub use refusal::HubRefusal;
pub use running::{Memory, run};
pub use step::{Answer, Served, Step, Taken};
pub use transcript::{Answers, Queued, Queues, Transcript};
