//! Why what a line asks for isn't done.

ghost use Rattle.std.specs.Prelude.{◌≡◌};

use floor_config::ConfigFault;
use floor_console::BoardRefusal;
use floor_room::RoomRefusal;
use std::alloc::AllocError;

/// Why what a line asks for isn't done.
#[derive(Clone, Copy, Debug, PartialEq, Eq)]
pub enum ControlRefusal {
    /// As the same line of the console is refused, or as a conference refuses it.
    ByBoard(BoardRefusal),
    /// The conference hasn't ended, or a connection is of it.
    Running,
    /// The conference was forgotten.
    Forgotten,
    /// The client watches the conference already.
    Watching,
    /// The place is 0, or is behind the next one.
    BadPlace,
    /// The server drains: no conference is opened any more.
    Draining,
    /// As many clients are there as the server serves.
    Full,
    /// A line or a configuration is too long.
    TooLong,
    /// A line isn't UTF-8.
    NotText,
}

impl ControlRefusal {
    ghost use Rattle.floor_control.specs.Names.{is_memory, name_of_refusal};

    /// The name of the variant, or of the refusal that it wraps. Takes no memory.
    pub fn name(&self) -> &'static str
        ensures value { result.now ≡ name_of_refusal self.now }
    {
        match self {
            ControlRefusal::ByBoard(refusal) => refusal.name(),
            ControlRefusal::Running => "Running",
            ControlRefusal::Forgotten => "Forgotten",
            ControlRefusal::Watching => "Watching",
            ControlRefusal::BadPlace => "BadPlace",
            ControlRefusal::Draining => "Draining",
            ControlRefusal::Full => "Full",
            ControlRefusal::TooLong => "TooLong",
            ControlRefusal::NotText => "NotText",
        }
    }

    /// Whether it is want of memory, in whichever layer. Takes no memory.
    pub fn is_memory(&self) -> bool
        ensures value { result ≡ is_memory self.now }
    {
        match self {
            ControlRefusal::ByBoard(refusal) => refusal.is_memory(),
            _ => false,
        }
    }
}

impl From<BoardRefusal> for ControlRefusal {
    ghost use Rattle.std.specs.Prelude.{◌≡◌};
    ghost use Rattle.floor_control.specs.declared.refusal.ControlRefusal.TheVariants.{ByBoard};

    ghost from_gives = { λ refusal e. e ≡ ByBoard refusal };

    fn from(refusal: BoardRefusal) -> ControlRefusal {
        ControlRefusal::ByBoard(refusal)
    }
}

impl From<RoomRefusal> for ControlRefusal {
    ghost use Rattle.std.specs.Prelude.{◌≡◌};
    ghost use Rattle.floor_console.specs.declared.board.BoardRefusal.TheVariants.{ByRoom};
    ghost use Rattle.floor_control.specs.declared.refusal.ControlRefusal.TheVariants.{ByBoard};

    ghost from_gives = { λ refusal e. e ≡ ByBoard (ByRoom refusal) };

    fn from(refusal: RoomRefusal) -> ControlRefusal {
        ControlRefusal::ByBoard(BoardRefusal::ByRoom(refusal))
    }
}

impl From<ConfigFault> for ControlRefusal {
    ghost use Rattle.std.specs.Prelude.{◌≡◌};
    ghost use Rattle.floor_console.specs.declared.board.BoardRefusal.TheVariants.{ByConfiguration};
    ghost use Rattle.floor_control.specs.declared.refusal.ControlRefusal.TheVariants.{ByBoard};

    ghost from_gives = { λ fault e. e ≡ ByBoard (ByConfiguration fault) };

    fn from(fault: ConfigFault) -> ControlRefusal {
        ControlRefusal::ByBoard(BoardRefusal::ByConfiguration(fault))
    }
}

impl From<AllocError> for ControlRefusal {
    ghost use Rattle.std.specs.Prelude.{◌≡◌};
    ghost use Rattle.floor_console.specs.declared.board.BoardRefusal.TheVariants.{Memory};
    ghost use Rattle.floor_control.specs.declared.refusal.ControlRefusal.TheVariants.{ByBoard};

    ghost from_gives = { λ _ e. e ≡ ByBoard Memory };

    fn from(_e: AllocError) -> ControlRefusal {
        ControlRefusal::ByBoard(BoardRefusal::Memory)
    }
}
