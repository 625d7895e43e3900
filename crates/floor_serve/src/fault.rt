//! Why a call of the registry, a loop or the end is refused.

ghost use Rattle.std.specs.Prelude.{◌≡◌};
ghost use Rattle.floor_serve.specs.Names.{desk_name, finish_name, open_name, read_name};

use floor_room::RoomRefusal;

/// Why a conference isn't opened.
#[derive(Clone, Copy, Debug, PartialEq, Eq)]
pub enum OpenRefusal {
    /// A conference was opened under the number, also where it is closed.
    Used,
    /// Memory was refused.
    Memory,
}

impl OpenRefusal {
    /// The name of the variant. Takes no memory.
    pub fn name(&self) -> &'static str
        ensures { result.now ≡ open_name self.now }
    {
        match self {
            OpenRefusal::Used => "Used",
            OpenRefusal::Memory => "Memory",
        }
    }
}

/// Why there is no desk.
#[derive(Clone, Copy, Debug, PartialEq, Eq)]
pub enum DeskRefusal {
    /// No conference was opened under the number.
    NoConference,
    /// Memory was refused.
    Memory,
}

impl DeskRefusal {
    /// The name of the variant. Takes no memory.
    pub fn name(&self) -> &'static str
        ensures { result.now ≡ desk_name self.now }
    {
        match self {
            DeskRefusal::NoConference => "NoConference",
            DeskRefusal::Memory => "Memory",
        }
    }
}

/// Why a reading loop stopped before the end of its stream.
#[derive(Clone, Copy, Debug, PartialEq, Eq)]
pub enum ReadFault {
    /// A read failed.
    Read,
    /// There were as many reads as the loop makes at most.
    TurnLimit,
    /// The conference refused a message, for another cause than memory.
    Refused(RoomRefusal),
    /// Memory was refused, to the loop or to the conference.
    Memory,
}

impl ReadFault {
    /// The name of the variant, or of the conference's refusal that it wraps. Takes no memory.
    pub fn name(&self) -> &'static str
        ensures { result.now ≡ read_name self.now }
    {
        match self {
            ReadFault::Read => "Read",
            ReadFault::TurnLimit => "TurnLimit",
            ReadFault::Refused(refusal) => refusal.name(),
            ReadFault::Memory => "Memory",
        }
    }
}

/// A write failed.
#[derive(Clone, Copy, Debug, PartialEq, Eq)]
pub struct WriteFault {
    /// How many bytes were written before. Stops at the greatest value.
    pub bytes: u64,
}

/// Why the end isn't as it should be. The first that applies is answered.
#[derive(Clone, Copy, Debug, PartialEq, Eq)]
pub enum FinishFault {
    /// Want of memory has broken an event of the conference off.
    Broken {
        /// The first such conference, in the order of opening.
        conference: u32,
    },
    /// A seat doesn't fit the journal of its conference, or another seat has its conference and
    /// number.
    Mismatch {
        /// The conference of the first such seat, in the order in which the seats are given.
        conference: u32,
        /// Its number.
        n: u32,
    },
}

impl FinishFault {
    /// The name of the variant. Takes no memory.
    pub fn name(&self) -> &'static str
        ensures { result.now ≡ finish_name self.now }
    {
        match self {
            FinishFault::Broken { .. } => "Broken",
            FinishFault::Mismatch { .. } => "Mismatch",
        }
    }
}
