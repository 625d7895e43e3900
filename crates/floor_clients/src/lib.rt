//! The control clients of a floor control server, as values without sockets.
//!
//! RFC 8855 leaves open how a server is administered (section 3.1). Programs do it by `floor_rpc`'s lines: here the bytes
//! of a client become lines, each line a request, each request one answer, in order, and what a client watches is told
//! between the answers. The crate stands on `floor_rpc` and does no input or output: whoever calls it has read the bytes,
//! carries out what is asked, says what happened, and writes what is lent.
#![tactic(auto)]

mod client;
mod incoming;
mod laws;
mod mode;
mod outgoing;
mod reply;
mod standing;
#[cfg(test)]
mod tests;
mod told;
mod watched;
mod workspace;

pub use client::{Client, MAX_CLIENTS, MAX_NOTICES, MAX_NOTICES_OF_ALL};
pub use floor_rpc::{Answer, Call, EventTold, Failure, Id, Notification, Response, ServerTold};
pub use laws::{each_line_its_answer, notices_are_bounded, watched_is_told};
pub use mode::Mode;
pub use outgoing::MAX_LENT;
pub use reply::Reply;
pub use standing::{Asked, CloseReason, Next, Standing};
pub use told::Told;
pub use workspace::Workspace;
