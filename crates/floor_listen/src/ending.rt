//! How the program ends: its exit status, and the name that standard error has.

ghost use Rattle.std.specs.Prelude.{◌≡◌};
ghost use Rattle.floor_listen.specs.Ending.{after_help, ended, status_of};

use floor_config::ConfigFault;
use std::alloc::{AllocError, AllocFailed};

/// Why the server ends with a fault. The name is what standard error has.
#[derive(Clone, Copy, Debug, PartialEq, Eq)]
pub enum ServerFault {
    /// The configuration's file can't be read, or isn't UTF-8.
    CannotRead,
    /// Standard output can't be written.
    CannotWrite,
    /// The configuration is refused.
    ByConfiguration(ConfigFault),
    /// A port can't be had.
    CannotListen,
    /// The folder of kept conferences can't be had, or another server has it.
    CannotKeep,
    /// The folder of kept conferences is another server's now.
    Lost,
    /// A kept conference's file is none.
    NotAJournal,
    /// A conference is broken.
    Broken,
    /// What a member sent isn't what the journal has.
    Mismatch,
    /// Memory was refused, or a thread can't be made.
    Memory,
}

impl ServerFault {
    ghost use Rattle.floor_listen.specs.Ending.{name_of};

    /// The name of the variant, or of the configuration's fault. Takes no memory.
    pub fn name(&self) -> &'static str
        ensures value { result.now ≡ name_of self.now }
    {
        match self {
            ServerFault::CannotRead => "CannotRead",
            ServerFault::CannotWrite => "CannotWrite",
            ServerFault::ByConfiguration(fault) => fault.name(),
            ServerFault::CannotListen => "CannotListen",
            ServerFault::CannotKeep => "CannotKeep",
            ServerFault::Lost => "Lost",
            ServerFault::NotAJournal => "NotAJournal",
            ServerFault::Broken => "Broken",
            ServerFault::Mismatch => "Mismatch",
            ServerFault::Memory => "Memory",
        }
    }
}

impl From<AllocError> for ServerFault {
    ghost use Rattle.floor_listen.specs.declared.ending.ServerFault.TheVariants.{Memory};

    ghost from_gives = { λ _ e. e ≡ Memory };

    fn from(_e: AllocError) -> ServerFault {
        ServerFault::Memory
    }
}

impl<T: Drop> From<AllocFailed<T>> for ServerFault {
    ghost use Rattle.floor_listen.specs.declared.ending.ServerFault.TheVariants.{Memory};

    ghost from_gives = { λ _ e. e ≡ Memory };

    fn from(_e: AllocFailed<T>) -> ServerFault {
        ServerFault::Memory
    }
}

/// How the program ends.
#[derive(Clone, Copy, Debug, PartialEq, Eq)]
pub enum Ending {
    /// In order: the help that was asked for is printed, or the server has stopped and found nothing
    /// wrong.
    InOrder,
    /// The words are refused, and a text says why.
    Refused,
    /// By a fault.
    Fault(ServerFault),
}

impl Ending {
    ghost use Rattle.std.specs.Option.{option_map};
    ghost use Rattle.floor_listen.specs.Ending.{told};

    /// The exit status: 0 where all was in order, 2 where the words are refused, 1 for a fault.
    pub fn status(&self) -> u8
        ensures value { result ≡ status_of self.now }
    {
        match self {
            Ending::InOrder => 0,
            Ending::Refused => 2,
            Ending::Fault(_) => 1,
        }
    }

    /// The name of the fault, for the last line of standard error; `None` where no fault ends it.
    /// Takes no memory.
    pub fn name(&self) -> Option<&'static str>
        ensures value { option_map (λ name. name.now) result ≡ told self.now }
    {
        match self {
            Ending::InOrder | Ending::Refused => None,
            Ending::Fault(fault) => Some(fault.name()),
        }
    }
}

/// How the program ends once the help that was asked for is printed, or couldn't be.
pub fn after_help(printed: Result<(), ServerFault>) -> Ending
    ensures value { result ≡ after_help printed }
{
    match printed {
        Ok(()) => Ending::InOrder,
        Err(fault) => Ending::Fault(fault),
    }
}

/// How the program ends once the server is stopped: what went wrong while it served comes before
/// what the stop found wrong.
pub fn ended(served: Result<(), ServerFault>, stopped: Result<(), ServerFault>) -> Ending
    ensures value { result ≡ ended served stopped }
{
    match served {
        Ok(()) => match stopped {
            Ok(()) => Ending::InOrder,
            Err(fault) => Ending::Fault(fault),
        },
        Err(fault) => Ending::Fault(fault),
    }
}
