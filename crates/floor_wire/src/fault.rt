//! Why bytes are not read as attributes (RFC 8855, section 5.2).

ghost use Rattle.std.specs.Prelude.{◌≡◌};
ghost use Rattle.floor_wire.specs.declared.fault.WireFault.TheVariants.{Memory};

use std::alloc::{AllocError, AllocFailed};

/// What is wrong with an attribute itself. BadLength is looked at before Overrun.
#[derive(Clone, Copy, Debug, PartialEq, Eq)]
pub enum Cause {
    /// No attribute of the type has the Length: it is below 2, or not 4 at the types 1 to 5, or
    /// below 4 or no multiple of 4 at a group.
    BadLength,
    /// The head or the padded contents pass the end of the bytes or of the group.
    Overrun,
}

/// Why bytes are not read as attributes, with the offset of the faulty one's first byte.
#[derive(Clone, Copy, Debug, PartialEq, Eq)]
pub enum WireFault {
    /// Memory ran out.
    Memory,
    /// The attribute at this offset has a Length that its type doesn't have.
    BadLength(usize),
    /// The attribute at this offset passes the end of the bytes or of its group.
    Overrun(usize),
}

impl From<AllocError> for WireFault {
    ghost from_gives = { λ _ e. e ≡ Memory };

    fn from(_e: AllocError) -> WireFault {
        WireFault::Memory
    }
}

impl<T: Drop> From<AllocFailed<T>> for WireFault {
    ghost from_gives = { λ _ e. e ≡ Memory };

    fn from(_e: AllocFailed<T>) -> WireFault {
        WireFault::Memory
    }
}
