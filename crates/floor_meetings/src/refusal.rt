//! Why a socket doesn't become a member's.

ghost use Rattle.std.specs.Prelude.{◌≡◌};

use floor_loop::HubRefusal;
use std::fmt;

/// Why a socket doesn't become a member's. The first that applies is answered.
#[derive(Clone, Copy, Debug, PartialEq, Eq)]
pub enum JoinRefusal {
    /// The slot has a member already. Nothing has changed.
    InUse,
    /// The user has as many sockets in the conference as one user may have. Nothing has changed.
    UserConnections,
    /// The conference has as many sockets as one may have. Nothing has changed.
    Connections,
    /// Memory was refused for the slot. Nothing has changed.
    Memory,
    /// The hub refuses it: behind `InUse` where there is no such conference, and else behind all others.
    ByHub(HubRefusal),
}

impl JoinRefusal {
    ghost use Rattle.floor_meetings.specs.Names.{name_of};

    /// The name of the variant, or of the hub's refusal. Takes no memory.
    pub fn name(self) -> &'static str
        ensures value { result.now ≡ name_of self }
    {
        match self {
            JoinRefusal::InUse => "InUse",
            JoinRefusal::UserConnections => "UserConnections",
            JoinRefusal::Connections => "Connections",
            JoinRefusal::Memory => "Memory",
            JoinRefusal::ByHub(refusal) => refusal.name(),
        }
    }
}

/// Writes the name.
impl fmt::Display for JoinRefusal {
    ghost use Rattle.std.specs.Prelude.{Some};
    ghost use Rattle.floor_meetings.specs.Names.{name_of};

    ghost output = { λ refusal. Some (name_of refusal) };

    fn fmt<W: fmt::Write>(&self, f: &mut fmt::Formatter<W>) -> fmt::Result {
        f.write_str(self.name())
    }
}
