//! Why a line is no act.

use std::alloc::{AllocError, Global};

/// Why a line that begins with the name of an act is none. The first that applies is answered.
#[derive(Clone, Copy, Debug, PartialEq, Eq)]
pub enum ActFault {
    /// The line has none of the forms of that act.
    UnknownCommand,
    /// A number isn't one to ten decimal digits, or is above its type: 32 bits for a conference, 16
    /// for all others; or a port is 0.
    BadNumber,
    /// Memory was refused.
    Memory,
}

impl From<AllocError> for ActFault {
    ghost use Rattle.std.specs.Prelude.{◌≡◌};
    ghost use Rattle.floor_acts.specs.declared.fault.ActFault.TheVariants.{Memory};

    ghost from_gives = { λ _ e. e ≡ Memory };

    fn from(_e: AllocError) -> ActFault {
        ActFault::Memory
    }
}
