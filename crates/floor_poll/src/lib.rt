//! The loops of a server of a hub: conferences over TCP, a port for each user, by a few event loops.
//!
//! A [`Server`] starts them, and asks them, by a thread that waits for the answer, or by [`Server::send`] for
//! somebody who doesn't: then the loop answers into an [`Inbox`]. It stands on floor_loop, which serves a hub, and
//! on floor_server, which has what all servers share: here are the sockets, the threads and the clock. A conference
//! belongs to one loop, with its ports and its connections. Loops share the log, who has which conference, and the
//! inbox in which they leave what the control socket is to know: no lock is held while a message is served.
#![tactic(auto)]

mod accepting;
mod announced;
mod arrival;
mod asks;
mod away;
mod connection;
mod counters;
mod departure;
mod doors;
mod elapsed;
mod fresh;
mod growth;
mod header;
mod inbox;
mod keeping;
mod lasting;
mod log;
mod mailbox;
mod opening;
mod owners;
mod places;
mod port;
mod readers;
mod refusals;
mod resumed;
mod resuming;
mod server;
mod turns;
mod worker;

pub use accepting::{ACCEPT_AGAIN_MILLIS, MAX_ACCEPTS};
pub use counters::{both, no_counts};
pub use elapsed::{Elapsed, earlier};
pub use fresh::{Fresh, fresh_of};
pub use inbox::{Asker, Inbox, Note, Unread};
pub use lasting::Lasting;
pub use mailbox::{Answer, Asked, Lines, Piece, Question, Report, Resumed, Unresumed};
pub use port::Port;
pub use refusals::{broken, ended};
pub use server::{Server, poll_of};
pub use worker::{REST_MILLIS, Room, WAKER};
