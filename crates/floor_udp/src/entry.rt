//! What the log tells: a line for each session that begins or ends, and how much was dropped.

use floor_datagram::End;
use std::alloc::{AllocError, Global};
use std::net::SocketAddr;

/// What the log tells.
#[derive(Clone, Copy, Debug)]
pub enum Entry {
    /// A user's session has begun, from this address and port.
    Joined {
        conference: u32,
        user: u16,
        peer: SocketAddr,
    },
    /// It has ended so.
    Left {
        conference: u32,
        user: u16,
        end: End,
    },
    /// So many datagrams were dropped in the last minute.
    Dropped(u64),
}

impl Entry {
    /// What the line says, without the time.
    pub fn text(&self, alloc: Global) -> Result<String, AllocError> {
        match self {
            Entry::Joined {
                conference,
                user,
                peer,
            } => format!(in alloc; "joined conference {conference} user {user} by {peer}"),
            Entry::Left {
                conference,
                user,
                end,
            } => format!(in alloc; "left conference {conference} user {user}: {}", end.name()),
            Entry::Dropped(count) => format!(in alloc; "dropped {count}"),
        }
    }
}
