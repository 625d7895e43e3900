//! Where is listened, and who connects there.

use floor_doors::NamedBy;

/// Where is listened: a TCP port, or the socket of the control clients, of which the caller knows where it is.
#[derive(Clone, Copy, Debug, PartialEq, Eq)]
pub enum Place {
    /// A user's: whoever connects there is this user of this conference.
    Port {
        conference: u32,
        user: u16,
        port: u16,
    },
    /// A door: a proxy connects there, and says in a header who it is that follows.
    Door {
        named_by: NamedBy,
        port: u16,
    },
    /// Nobody's: whoever looks whether the server lives connects there, and is let go at once.
    Health {
        port: u16,
    },
    /// The control clients'.
    Control,
    /// That of the control clients that read alone.
    Observe,
}

/// Who has connected: where, and from which port of its own, 0 where the system doesn't tell.
#[derive(Clone, Copy, Debug, PartialEq, Eq)]
pub struct Peer {
    pub place: Place,
    pub port: u16,
}
