//! What the server tells a client (RFC 8855, section 5.3).

ghost use Rattle.std.specs.Prelude.{◌≡◌};
ghost use Rattle.floor_message.specs.declared.tell.TellFault.TheVariants.{Memory};

use crate::information::{Info, Who};
use crate::infos::Infos;
use floor_wire::Octets;
use std::alloc::{AllocError, AllocFailed};

/// Why a message is no [`Tell`].
#[derive(Clone, Copy, Debug, PartialEq, Eq)]
pub enum TellFault {
    /// Memory was refused.
    Memory,
    /// The message tells nothing that this protocol knows.
    BadMessage,
}

impl From<AllocError> for TellFault {
    ghost from_gives = { λ _ e. e ≡ Memory };

    fn from(_e: AllocError) -> TellFault {
        TellFault::Memory
    }
}

impl<T: Drop> From<AllocFailed<T>> for TellFault {
    ghost from_gives = { λ _ e. e ≡ Memory };

    fn from(_e: AllocFailed<T>) -> TellFault {
        TellFault::Memory
    }
}

/// A message from the server to a client.
#[derive(Debug, Drop)]
pub enum Tell {
    /// How a floor request stands (section 5.3.4).
    FloorRequestStatus {
        info: Info,
    },
    /// A user, where one was asked about, and floor requests of one (section 5.3.6).
    UserStatus {
        who: Option<Who>,
        infos: Infos,
    },
    /// A floor, where one was asked about, and the floor requests that name it (section 5.3.8).
    FloorStatus {
        floor: Option<u16>,
        infos: Infos,
    },
    /// A ChairAction was done (section 5.3.10).
    ChairActionAck,
    /// The primitives and the types of attributes that the server supports (section 5.3.12).
    HelloAck {
        primitives: Octets,
        attributes: Octets,
    },
    /// The error code that answers a message, with its details (section 5.3.13).
    Error {
        code: u8,
        details: Octets,
    },
}
