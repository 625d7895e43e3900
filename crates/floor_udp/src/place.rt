//! What stands beside a user's session: its connection to the server, and how much it may have.

use crate::allowance::Allowance;
use std::net::SocketAddr;

/// How many datagrams a session takes a second, and at once.
const DATAGRAMS: u32 = 100;

/// How many bytes a session sends a second, and at once.
const SENT: u32 = 65_536;

const SENT_AT_ONCE: u32 = 131_072;

/// How many sessions of a user begin a second, and at once.
const BEGUN: u32 = 1;

const BEGUN_AT_ONCE: u32 = 4;

/// What stands beside a user's session.
#[derive(Debug, Drop)]
pub struct Place {
    /// Whether a session goes on there, whose end is told.
    pub is_live: bool,
    /// Whether the session waits for anything of its peer's.
    pub awaits: bool,
    /// The number of its connection to the server, while there is one.
    pub link: Option<u64>,
    /// The address and port that it is bound to, once there was a session.
    pub peer: Option<SocketAddr>,
    /// When something is due of it, if anything is, in milliseconds.
    pub due: Option<u64>,
    pub taken: Allowance,
    pub sent: Allowance,
    pub begun: Allowance,
}

impl Place {
    /// One where no session has begun.
    pub fn new(now: u64) -> Place {
        Place {
            is_live: false,
            awaits: false,
            link: None,
            peer: None,
            due: None,
            taken: Allowance::new(DATAGRAMS, DATAGRAMS, now),
            sent: Allowance::new(SENT, SENT_AT_ONCE, now),
            begun: Allowance::new(BEGUN, BEGUN_AT_ONCE, now),
        }
    }
}
