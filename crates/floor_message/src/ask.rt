//! What a client asks of the server, and whom a connection asks for (RFC 8855, section 5.3).

ghost use Rattle.std.specs.Prelude.{◌≡◌};
ghost use Rattle.floor_message.specs.declared.ask.AskFault.TheVariants.{Memory};

use crate::code::ErrorCode;
use crate::verdicts::Verdicts;
use floor_wire::{Numbers, Octets};
use std::alloc::{AllocError, AllocFailed};

/// Why a message is no [`Ask`].
#[derive(Debug, Drop)]
pub enum AskFault {
    /// Memory was refused.
    Memory,
    /// The message is answered by an Error.
    Error {
        /// The error code that answers it.
        code: ErrorCode,
        /// For error code 4 a byte per unknown type, the type in the upper 7 bits; else none.
        details: Octets,
    },
}

impl From<AllocError> for AskFault {
    ghost from_gives = { λ _ e. e ≡ Memory };

    fn from(_e: AllocError) -> AskFault {
        AskFault::Memory
    }
}

impl<T: Drop> From<AllocFailed<T>> for AskFault {
    ghost from_gives = { λ _ e. e ≡ Memory };

    fn from(_e: AllocFailed<T>) -> AskFault {
        AskFault::Memory
    }
}

/// Whom a connection asks for: the result of signalling, handed in.
#[derive(Clone, Copy, Debug)]
pub struct Binding<'a> {
    /// The conference of the connection.
    pub conference: u32,
    /// The user whose connection it is.
    pub user: u16,
    /// The users of the conference.
    pub users: &'a [u16],
}

/// A message from a client to the server.
#[derive(Debug, Drop)]
pub enum Ask {
    /// Asks for floors, for the sender or for a beneficiary (section 5.3.1).
    FloorRequest {
        /// The third party that the request is for, where there is one.
        beneficiary: Option<u16>,
        /// The floors, each once, in order of first appearance.
        floors: Numbers,
        /// 0 Lowest to 4 Highest.
        priority: u8,
        /// What the requester says of it: UTF-8 of 1 to 62 bytes.
        info: Option<Octets>,
    },
    /// Releases a floor request (section 5.3.2).
    FloorRelease {
        request: u16,
    },
    /// Asks how a floor request stands (section 5.3.3).
    FloorRequestQuery {
        request: u16,
    },
    /// Asks about a user, and the floor requests of one (section 5.3.5).
    UserQuery {
        /// The user asked about, where it isn't the sender.
        beneficiary: Option<u16>,
    },
    /// Asks how floors stand, and for notices of their changes (section 5.3.7).
    FloorQuery {
        /// The floors, each once, in order of first appearance.
        floors: Numbers,
    },
    /// A chair's decision on a floor request (section 5.3.9).
    ChairAction {
        request: u16,
        /// The floors, each once, in order of first appearance, with the verdict on each.
        verdicts: Verdicts,
        /// Why the chair decides so, where it says: UTF-8 of 1 to 30 bytes (section 11.1).
        reason: Option<Octets>,
    },
    /// Asks what the server supports (section 5.3.11).
    Hello,
}
