//! Why who has connected isn't let in.

ghost use Rattle.std.specs.Prelude.{◌≡◌};

use floor_doors::DoorRefusal;
use floor_meetings::JoinRefusal;
use std::fmt;

/// Why who has connected isn't let in. The first that applies is answered.
#[derive(Clone, Copy, Debug, PartialEq, Eq)]
pub enum Refusal {
    /// No accept was asked of the listener, or there is none.
    NotAsked,
    /// Memory was refused for its socket.
    Memory,
    /// Its user was shown out of the conference.
    Removed,
    /// Its header at a door says so, or is none.
    AtDoor(DoorRefusal),
    /// Its conference doesn't let it in.
    AtMeeting(JoinRefusal),
}

impl Refusal {
    ghost use Rattle.floor_connections.specs.Names.{name_of};

    /// The name of the variant, or of the refusal that it wraps. Takes no memory.
    pub fn name(self) -> &'static str
        ensures value { result.now ≡ name_of self }
    {
        match self {
            Refusal::NotAsked => "NotAsked",
            Refusal::Memory => "Memory",
            Refusal::Removed => "Removed",
            Refusal::AtDoor(refusal) => refusal.name(),
            Refusal::AtMeeting(refusal) => refusal.name(),
        }
    }
}

/// Writes the name.
impl fmt::Display for Refusal {
    ghost use Rattle.std.specs.Prelude.{Some};
    ghost use Rattle.floor_connections.specs.Names.{name_of};

    ghost output = { λ refusal. Some (name_of refusal) };

    fn fmt<W: fmt::Write>(&self, f: &mut fmt::Formatter<W>) -> fmt::Result {
        f.write_str(self.name())
    }
}
