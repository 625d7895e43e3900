//! Which socket is which member, without a socket: what happens to a member's socket goes into the loop by its slot,
//! and what is to be written to it comes out by its slot.
//!
//! A socket's life, from its `join` until it has `left`, is one member of one conference (RFC 8855, section 6). The
//! crate stands on floor_loop, does no input or output, and waits for nothing. Whoever calls it has the sockets and the
//! clock.
#![tactic(auto)]

mod bounds;
mod counting;
mod keeping;
mod laws;
mod meetings;
mod members;
mod refusal;
#[cfg(test)]
mod tests;
mod turn;
mod watching;

pub use bounds::Bounds;
pub use floor_loop::{Act, Config, ConnNo, Grace, HubRefusal, Loop, Said};
pub use laws::{joins_are_their_own, one_is_written, taken_is_called_for};
pub use meetings::{Due, Meetings, Ready};
pub use members::Member;
pub use refusal::JoinRefusal;
