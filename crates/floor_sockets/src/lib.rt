//! The sockets of a server, without a socket: what each is for, what the poll has told of it, whose turn it is, and
//! who is to be shut down when.
//!
//! RFC 8855 leaves to a server how it serves many connections (section 6). Each socket has a slot of one table from
//! its accept until it is shut. The crate stands on `slab` alone, and does no input or output: whoever calls it asks
//! the system, and says what it answered.
#![tactic(auto)]

mod deadlines;
mod ending;
mod laws;
mod life;
mod queue;
mod role;
mod rounds;
mod sockets;
#[cfg(test)]
mod tests;
mod turn;

pub use deadlines::Deadline;
pub use ending::end_and_shut;
pub use laws::{
    one_is_read, one_is_shut, who_fails_is_shut, who_is_ended_is_shut, who_is_told_of_is_read,
    who_says_nothing_is_shut,
};
pub use life::{Asked, Deed, Life, MAX_READ};
pub use role::Role;
pub use sockets::{ACCEPT_AGAIN_MICROS, MAX_HEADER_MICROS, MAX_SHUT_MICROS, Sockets};
