//! Steps and their answers.

use crate::refusal::HubRefusal;
use floor_room::{Act, Config, Said};
use floor_wire::Octets;

/// One call of the hub, as data.
#[derive(Debug, Drop)]
pub enum Step {
    /// A conference opens.
    Open(Config),
    /// A connection of a user is attached to a conference.
    Attach {
        /// The conference.
        conference: u32,
        /// The user.
        user: u16,
    },
    /// Bytes come from an arrival.
    Piece {
        /// The arrival's number.
        number: u64,
        /// The bytes.
        bytes: Octets,
    },
    /// The next message of an arrival is served.
    Serve(u64),
    /// Some of the parcels to an arrival were brought to their end.
    Took {
        /// The arrival's number.
        number: u64,
        /// How many parcels.
        k: u32,
    },
    /// An arrival leaves.
    Leave(u64),
    /// The administrator of a conference acts.
    Admin {
        /// The conference.
        conference: u32,
        /// What is done.
        act: Act,
    },
    /// The administrator of a conference says a message for a user.
    Say {
        /// The conference.
        conference: u32,
        /// The user.
        user: u16,
        /// The bytes of the message.
        message: Octets,
    },
}

/// What a step was answered.
#[derive(Debug, Drop)]
pub enum Answer {
    /// It was done.
    Done,
    /// A connection was attached, and has this number.
    Attached(u64),
    /// There was no whole message to serve.
    Nothing,
    /// A message was served.
    Served,
    /// A message was said for a user: its place in the journal, and what answers it.
    Said(Said),
    /// It was refused.
    Refused(HubRefusal),
}

/// What was taken for a connection.
#[derive(Clone, Copy, Debug, PartialEq, Eq)]
pub struct Taken {
    /// How many parcels.
    pub count: u32,
    /// Memory was refused for one more, which goes on to wait.
    pub is_refused: bool,
}

/// What serving an arrival has found.
#[derive(Clone, Copy, Debug, PartialEq, Eq)]
pub enum Served {
    /// No whole message.
    Nothing,
    /// A message, which was served.
    Message,
}
