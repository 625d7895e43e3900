//! What names a message: its conference, its transaction and its user (RFC 8855, section 5.1).

ghost use Rattle.std.specs.Prelude.{◌≡◌};
ghost use Rattle.floor_message.specs.Head.{notice_head, response_head};

use floor_wire::Frame;

/// The fields of the common header that a message is answered by.
#[derive(Clone, Copy, Debug, PartialEq, Eq)]
pub struct Head {
    /// The Conference ID.
    pub conference: u32,
    /// The Transaction ID: 0 in a message that the server starts.
    pub transaction: u16,
    /// The User ID.
    pub user: u16,
}

impl Head {
    /// The head of a response: the ids of the message that it answers (RFC 8855, section 8.1).
    pub fn response(frame: &Frame) -> Head
        ensures { result ≡ response_head frame.now }
    {
        let header = frame.header();
        Head {
            conference: header.conference(),
            transaction: header.transaction(),
            user: header.user(),
        }
    }

    /// The head of a message that the server starts for this user (section 8.2).
    pub fn notice(conference: u32, user: u16) -> Head
        ensures { result ≡ notice_head conference user }
    {
        Head {
            conference,
            transaction: 0,
            user,
        }
    }
}
