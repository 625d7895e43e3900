//! Why a configuration is refused.

ghost use Rattle.std.specs.Prelude.{◌≡◌};
ghost use Rattle.floor_config.specs.declared.fault.ConfigFault.TheVariants.{Memory};

use std::alloc::{AllocError, AllocFailed};
use std::fmt;

/// Why a configuration is refused. The first that applies, in the order of the checks, is answered.
#[derive(Clone, Copy, Debug, PartialEq, Eq)]
pub enum ConfigFault {
    /// The text isn't TOML.
    Syntax,
    /// A key that has to stand is absent.
    MissingKey,
    /// A value is of another kind.
    WrongType,
    /// A number, the length of a text or the length of an array is beyond its range.
    OutOfRange,
    /// Two users of one conference have one id.
    DoubleUser,
    /// Two floors of one conference have one id.
    DoubleFloor,
    /// No floor of the conference has the id. Neither a reading nor `Config::build` answers it.
    NoFloor,
    /// A floor's chair is no user of its conference.
    UnknownChair,
    /// Two conferences have one id.
    DoubleConference,
    /// Two users, of one conference or of two, have one port.
    DoublePort,
    /// Memory was refused.
    Memory,
}

impl ConfigFault {
    ghost use Rattle.floor_config.specs.Names.{name_of};

    /// The name of the variant. Takes no memory.
    pub fn name(self) -> &'static str
        ensures { result.now ≡ name_of self }
    {
        match self {
            ConfigFault::Syntax => "Syntax",
            ConfigFault::MissingKey => "MissingKey",
            ConfigFault::WrongType => "WrongType",
            ConfigFault::OutOfRange => "OutOfRange",
            ConfigFault::DoubleUser => "DoubleUser",
            ConfigFault::DoubleFloor => "DoubleFloor",
            ConfigFault::NoFloor => "NoFloor",
            ConfigFault::UnknownChair => "UnknownChair",
            ConfigFault::DoubleConference => "DoubleConference",
            ConfigFault::DoublePort => "DoublePort",
            ConfigFault::Memory => "Memory",
        }
    }
}

/// Writes the name of the variant.
impl fmt::Display for ConfigFault {
    ghost use Rattle.std.specs.Prelude.{Some};
    ghost use Rattle.floor_config.specs.Names.{name_of};

    ghost output = { λ fault. Some (name_of fault) };

    fn fmt<W: fmt::Write>(&self, f: &mut fmt::Formatter<W>) -> fmt::Result {
        f.write_str(self.name())
    }
}

impl From<AllocError> for ConfigFault {
    ghost from_gives = { λ _ e. e ≡ Memory };

    fn from(_e: AllocError) -> ConfigFault {
        ConfigFault::Memory
    }
}

impl<T: Drop> From<AllocFailed<T>> for ConfigFault {
    ghost from_gives = { λ _ e. e ≡ Memory };

    fn from(_e: AllocFailed<T>) -> ConfigFault {
        ConfigFault::Memory
    }
}
