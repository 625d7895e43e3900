//! A floor control server as one value: what happened goes in, and what is to be done comes out.
//!
//! RFC 8855 leaves to a server how it serves many connections (section 6). This crate joins the parts that decide: the
//! sockets and who is at them (`floor_connections`), whose turn it is (`floor_sockets`), who comes by a proxy
//! (`floor_doors`), and the conferences with their members (`floor_meetings`). It has no socket, clock, file or thread, and
//! waits for nothing: whoever calls it asks the system, and says what it answered.
#![tactic(auto)]

mod accepting;
mod clients;
mod hearing;
mod holding;
mod laws;
mod meeting;
mod opening;
mod removing;
mod saying;
mod server;
mod shutting;
#[cfg(test)]
mod tests;
mod turning;
mod watching;
mod writing;

pub use floor_connections::{Deed, Departure, Entry, Fault, Peer, Place, Refusal, Who};
pub use floor_doors::{DoorRefusal, NamedBy};
pub use floor_loop::Event;
pub use floor_meetings::{Act, Bounds, Config, Grace, HubRefusal, JoinRefusal, Loop, Member, Said};
pub use floor_sockets::MAX_READ;
pub use laws::{
    nothing_is_left, one_is_written, taken_is_called_for, who_fails_is_shut, who_is_ended_is_shut,
};
pub use server::Server;
