//! Why somebody at a door isn't let in.

ghost use Rattle.std.specs.Prelude.{◌≡◌};

use floor_proxy::ProxyRefusal;
use std::fmt;

/// Why somebody at a door isn't let in.
#[derive(Clone, Copy, Debug, PartialEq, Eq)]
pub enum DoorRefusal {
    /// The time or the stream was over before the header was whole.
    NoHeader,
    /// The header says so.
    ByHeader(ProxyRefusal),
    /// Memory was refused.
    Memory,
}

impl DoorRefusal {
    ghost use Rattle.floor_doors.specs.Names.{name_of};

    /// The name of the variant, or of the header's refusal. Takes no memory.
    pub fn name(self) -> &'static str
        ensures value { result.now ≡ name_of self }
    {
        match self {
            DoorRefusal::NoHeader => "NoHeader",
            DoorRefusal::ByHeader(refusal) => refusal.name(),
            DoorRefusal::Memory => "Memory",
        }
    }
}

/// Writes the name.
impl fmt::Display for DoorRefusal {
    ghost use Rattle.std.specs.Prelude.{Some};
    ghost use Rattle.floor_doors.specs.Names.{name_of};

    ghost output = { λ refusal. Some (name_of refusal) };

    fn fmt<W: fmt::Write>(&self, f: &mut fmt::Formatter<W>) -> fmt::Result {
        f.write_str(self.name())
    }
}
