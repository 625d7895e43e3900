//! What a message from the server is to a client (RFC 8855, section 8).

use floor_message::Tell;

/// What a client hears in a message.
#[derive(Debug, Drop)]
pub enum Heard {
    /// No message from a server of this protocol.
    BadMessage,
    /// A message for another conference or user, or a response to no open transaction.
    Stray,
    /// The response to the transaction of this number, which it ends.
    Reply(u16, Tell),
    /// What the server starts, under the number 0.
    Notice(Tell),
}
