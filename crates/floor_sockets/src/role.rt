//! What a socket is for.

/// What a socket is for, from its accept on. Whoever calls keeps by the slot what else it knows of the socket.
#[derive(Clone, Copy, Debug, PartialEq, Eq)]
pub enum Role {
    /// Whoever connects is accepted here.
    Listener,
    /// A member of a conference, by a port of its user.
    Member,
    /// Somebody at a door, who hasn't said yet who it is.
    AtDoor,
    /// A member of a conference, by a door.
    MemberByDoor,
    /// A program that administers.
    Control,
    /// A program that reads alone.
    Observer,
    /// The administrator's console.
    Console,
    /// Whoever looks whether the server lives.
    Probe,
    /// Whoever asks by HTTP.
    Http,
}

impl Role {
    ghost use Rattle.std.specs.Prelude.{◌≡◌};
    ghost use Rattle.floor_sockets.specs.Sockets.{is_at_door};

    /// Whether a header is awaited.
    pub(crate) fn is_at_door(self) -> bool
        ensures value { result ≡ is_at_door self }
    {
        match self {
            Role::AtDoor => true,
            Role::Listener
            | Role::Member
            | Role::MemberByDoor
            | Role::Control
            | Role::Observer
            | Role::Console
            | Role::Probe
            | Role::Http => false,
        }
    }
}
