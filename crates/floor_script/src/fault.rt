//! Why a run of a script ends early.

use std::alloc::{AllocError, AllocFailed};
use std::io;

/// Why a run ends early.
#[derive(Clone, Copy, Debug, PartialEq, Eq)]
pub enum RunFault {
    /// A read failed, or the input isn't UTF-8 or takes too many reads.
    CannotRead,
    /// A write failed.
    CannotWrite,
    /// Memory ran out.
    Memory,
    /// The configuration or a line was refused, and its fault is printed.
    Refused,
}

impl RunFault {
    ghost use Rattle.std.specs.Prelude.{◌≡◌};
    ghost use Rattle.std.specs.Option.{option_map};
    ghost use Rattle.floor_script.specs.Names.{name_of_run_fault, status_of};

    /// The name that standard error tells, where the output doesn't tell the fault. Takes no memory.
    pub fn name(&self) -> Option<&'static str>
        ensures value { option_map (λ name. name.now) result ≡ name_of_run_fault self.now }
    {
        match self {
            RunFault::CannotRead => Some("CannotRead"),
            RunFault::CannotWrite => Some("CannotWrite"),
            RunFault::Memory => Some("Memory"),
            RunFault::Refused => None,
        }
    }

    /// The exit status: 2 where the configuration or a line was refused, else 1.
    pub fn status(&self) -> u8
        ensures value { result ≡ status_of self.now }
    {
        match self {
            RunFault::CannotRead | RunFault::CannotWrite | RunFault::Memory => 1,
            RunFault::Refused => 2,
        }
    }
}

/// Whatever the standard library fails by here is a write.
impl From<io::Error> for RunFault {
    ghost use Rattle.std.specs.Prelude.{◌≡◌};
    ghost use Rattle.floor_script.specs.declared.fault.RunFault.TheVariants.{CannotWrite};

    ghost from_gives = { λ _ e. e ≡ CannotWrite };

    fn from(_e: io::Error) -> RunFault {
        RunFault::CannotWrite
    }
}

impl From<AllocError> for RunFault {
    ghost use Rattle.std.specs.Prelude.{◌≡◌};
    ghost use Rattle.floor_script.specs.declared.fault.RunFault.TheVariants.{Memory};

    ghost from_gives = { λ _ e. e ≡ Memory };

    fn from(_e: AllocError) -> RunFault {
        RunFault::Memory
    }
}

impl<T: Drop> From<AllocFailed<T>> for RunFault {
    ghost use Rattle.std.specs.Prelude.{◌≡◌};
    ghost use Rattle.floor_script.specs.declared.fault.RunFault.TheVariants.{Memory};

    ghost from_gives = { λ _ e. e ≡ Memory };

    fn from(_e: AllocFailed<T>) -> RunFault {
        RunFault::Memory
    }
}
