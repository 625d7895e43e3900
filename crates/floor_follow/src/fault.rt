//! Why a line of the control socket isn't taken.

ghost use Rattle.std.specs.Prelude.{◌≡◌};
ghost use Rattle.floor_follow.specs.Names.{name_of};

use floor_words::HexadecimalFault;
use std::alloc::{AllocError, AllocFailed};

/// Why a line of the control socket isn't taken. Whoever meets one follows anew: what was told behind it
/// can't be known to be whole.
#[derive(Clone, Copy, Debug, PartialEq, Eq)]
pub enum FollowFault {
    /// No line of the control socket has this form.
    UnknownLine,
    /// A number isn't one to ten decimal digits, or is above its type.
    BadNumber,
    /// A text has another character than a hexadecimal digit, or an odd count of digits.
    BadHex,
    /// The line belongs to an answer, and not to one of what was asked.
    Unasked,
    /// Memory was refused.
    Memory,
}

impl FollowFault {
    /// Its name. Takes no memory.
    pub fn name(self) -> &'static str
        ensures value { result.now ≡ name_of self }
    {
        match self {
            FollowFault::UnknownLine => "UnknownLine",
            FollowFault::BadNumber => "BadNumber",
            FollowFault::BadHex => "BadHex",
            FollowFault::Unasked => "Unasked",
            FollowFault::Memory => "Memory",
        }
    }
}

impl From<AllocError> for FollowFault {
    ghost use Rattle.std.specs.Prelude.{◌≡◌};
    ghost use Rattle.floor_follow.specs.declared.fault.FollowFault.TheVariants.{Memory};

    ghost from_gives = { λ _ e. e ≡ Memory };

    fn from(_e: AllocError) -> FollowFault {
        FollowFault::Memory
    }
}

impl<T: Drop> From<AllocFailed<T>> for FollowFault {
    ghost use Rattle.std.specs.Prelude.{◌≡◌};
    ghost use Rattle.floor_follow.specs.declared.fault.FollowFault.TheVariants.{Memory};

    ghost from_gives = { λ _ e. e ≡ Memory };

    fn from(_e: AllocFailed<T>) -> FollowFault {
        FollowFault::Memory
    }
}

impl From<HexadecimalFault> for FollowFault {
    ghost use Rattle.std.specs.Prelude.{◌≡◌};
    ghost use Rattle.floor_follow.specs.Reading.{of_hexadecimal_fault};

    ghost from_gives = { λ fault e. e ≡ of_hexadecimal_fault fault };

    fn from(fault: HexadecimalFault) -> FollowFault {
        match fault {
            HexadecimalFault::BadHex => FollowFault::BadHex,
            HexadecimalFault::Memory => FollowFault::Memory,
        }
    }
}
