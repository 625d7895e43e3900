//! Why a conference's file isn't begun, and nothing is put to one.

use std::alloc::{AllocError, AllocFailed};

/// Why a conference isn't kept from now on. The first that applies is answered.
#[derive(Clone, Copy, Debug, PartialEq, Eq)]
pub enum BeginRefusal {
    /// It has a file already.
    Used,
    /// Memory was refused.
    Memory,
}

impl From<AllocError> for BeginRefusal {
    ghost use Rattle.std.specs.Prelude.{◌≡◌};
    ghost use Rattle.floor_keeping.specs.declared.refusal.BeginRefusal.TheVariants.{Memory};

    ghost from_gives = { λ _ e. e ≡ Memory };

    fn from(_e: AllocError) -> BeginRefusal {
        BeginRefusal::Memory
    }
}

impl<T: Drop> From<AllocFailed<T>> for BeginRefusal {
    ghost use Rattle.std.specs.Prelude.{◌≡◌};
    ghost use Rattle.floor_keeping.specs.declared.refusal.BeginRefusal.TheVariants.{Memory};

    ghost from_gives = { λ _ e. e ≡ Memory };

    fn from(_e: AllocFailed<T>) -> BeginRefusal {
        BeginRefusal::Memory
    }
}

/// Why nothing is put to a conference's file. The first that applies is answered.
#[derive(Clone, Copy, Debug, PartialEq, Eq)]
pub enum PutRefusal {
    /// The conference isn't kept, or not any more, or was closed.
    NotKept,
    /// The journal has fewer events than were put before.
    Shorter,
    /// Memory was refused.
    Memory,
}

impl From<AllocError> for PutRefusal {
    ghost use Rattle.std.specs.Prelude.{◌≡◌};
    ghost use Rattle.floor_keeping.specs.declared.refusal.PutRefusal.TheVariants.{Memory};

    ghost from_gives = { λ _ e. e ≡ Memory };

    fn from(_e: AllocError) -> PutRefusal {
        PutRefusal::Memory
    }
}
