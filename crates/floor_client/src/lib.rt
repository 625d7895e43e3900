//! The core of a floor control client (RFC 8855, sections 8.1 and 10 to 12): a [`Client`] numbers
//! what it asks, and tells the responses to it from notices and from messages that aren't its own;
//! [`render`] is a heard message as a line of text.
//!
//! It stands on `floor_message` for messages as values and as bytes. It does no input or output:
//! whoever owns a client carries its frames to the server and the server's frames to it.
#![tactic(auto)]

mod client;
mod heard;
mod laws;
mod pieces;
mod rendering;
mod transactions;

pub use client::{AskRefusal, Client};
pub use floor_message::{
    Ask, FloorStatuses, Frame, Head, Info, Infos, Numbers, Octets, Tell, Verdict, Verdicts, Who,
    ask_fits,
};
pub use heard::Heard;
pub use laws::{
    a_number_opens_and_closes_alone, a_response_closes_its_transaction, the_next_number_is_one,
};
pub use rendering::render;
