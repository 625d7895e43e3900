//! A gateway for room systems: it carries BFCP between datagrams, version 2, and a floor control server's
//! door, version 1 (RFC 8855, sections 6.2 and 8.3).
//!
//! [`run`] does what a program's words ask for. It stands on floor_datagram and floor_sessions, which decide
//! what is carried and whose it is, on floor_follow, which has the picture of what the control socket tells,
//! and on floor_log: here are the calls of the system. One thread waits for all sockets; another one waits
//! for the end of the input, and the log has its own.
#![tactic(auto)]

mod allowance;
mod entry;
mod fault;
mod following;
mod gate;
mod input;
mod link;
mod origin;
mod passing;
mod place;
mod receiving;
mod running;
mod sending;
mod stopping;
mod table;
mod users;
mod words;

pub use fault::UdpFault;
pub use running::{run, tell};
