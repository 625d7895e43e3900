//! Why conferences can't be kept.

ghost use Rattle.std.specs.Prelude.{◌≢◌};
ghost use Rattle.floor_keep.specs.declared.fault.KeepFault.TheVariants.{Lost};

use std::alloc::{AllocError, AllocFailed, Global};
use std::io;
use std::io::ErrorKind;

/// Why a folder or a file of it isn't had.
#[derive(Clone, Copy, Debug, PartialEq, Eq)]
pub enum KeepFault {
    /// The system refuses it, or another process holds the folder.
    CannotKeep,
    /// The folder's epoch is another number than at the start, or than it has to be: the folder is another server's
    /// now.
    Lost,
    /// The process or the system has no descriptor left.
    Descriptors,
    /// Memory was refused.
    Memory,
}

impl KeepFault {
    ghost use Rattle.std.specs.Prelude.{◌≡◌};
    ghost use Rattle.floor_keep.specs.Names.{name_of};

    /// The name of the variant. Takes no memory.
    pub fn name(&self) -> &'static str
        ensures value { result.now ≡ name_of self.now }
    {
        match self {
            KeepFault::CannotKeep => "CannotKeep",
            KeepFault::Lost => "Lost",
            KeepFault::Descriptors => "Descriptors",
            KeepFault::Memory => "Memory",
        }
    }
}

impl From<AllocError> for KeepFault {
    ghost use Rattle.std.specs.Prelude.{◌≡◌};
    ghost use Rattle.floor_keep.specs.declared.fault.KeepFault.TheVariants.{Memory};

    ghost from_gives = { λ _ e. e ≡ Memory };

    fn from(_e: AllocError) -> KeepFault {
        KeepFault::Memory
    }
}

impl<T: Drop> From<AllocFailed<T>> for KeepFault {
    ghost use Rattle.std.specs.Prelude.{◌≡◌};
    ghost use Rattle.floor_keep.specs.declared.fault.KeepFault.TheVariants.{Memory};

    ghost from_gives = { λ _ e. e ≡ Memory };

    fn from(_e: AllocFailed<T>) -> KeepFault {
        KeepFault::Memory
    }
}

/// Why a folder or a file of it isn't had, and what a person is told of it in one line, where memory could be
/// had for that.
#[derive(Debug, Drop)]
pub struct KeepReason {
    pub fault: KeepFault,
    pub line: Option<String>,
}

impl KeepReason {
    /// That memory was refused.
    pub fn memory() -> KeepReason {
        KeepReason {
            fault: KeepFault::Memory,
            line: None,
        }
    }

    /// What the system refuses at a path.
    pub fn at(alloc: Global, path: &str, error: &io::Error) -> KeepReason {
        let fault = fault_of(error);
        let line = match fault {
            KeepFault::Descriptors => {
                format!(in alloc;
                    "{path}: {error}; each kept conference takes a descriptor (ulimit -n)"
                )
            }
            _ => format!(in alloc; "{path}: {error}"),
        };
        KeepReason {
            fault,
            line: line.ok(),
        }
    }

    /// What is wrong at a path.
    pub fn of(alloc: Global, path: &str, wrong: &str) -> KeepReason {
        KeepReason {
            fault: KeepFault::CannotKeep,
            line: format!(in alloc; "{path}: {wrong}").ok(),
        }
    }
}

impl From<AllocError> for KeepReason {
    fn from(_e: AllocError) -> KeepReason {
        KeepReason::memory()
    }
}

impl<T: Drop> From<AllocFailed<T>> for KeepReason {
    fn from(_e: AllocFailed<T>) -> KeepReason {
        KeepReason::memory()
    }
}

/// The error of Linux where the process has no descriptor left.
const EMFILE: i32 = 24;

/// The same of the whole system.
const ENFILE: i32 = 23;

/// The fault of an error of the system.
pub(crate) fn fault_of(error: &io::Error) -> KeepFault
    ensures fenced { result ≢ Lost }
{
    match error.kind() {
        ErrorKind::OutOfMemory => KeepFault::Memory,
        _ if has_no_descriptor(error) => KeepFault::Descriptors,
        _ => KeepFault::CannotKeep,
    }
}

/// Whether an error of the system says that no descriptor is left.
fn has_no_descriptor(error: &io::Error) -> bool {
    matches!(error.raw_os_error(), Some(EMFILE | ENFILE))
}
