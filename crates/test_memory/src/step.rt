//! What is done in each of a server's conferences, and why it is refused.

use floor_serve::{DeskRefusal, OpenRefusal, ReadFault, RoomRefusal};
use std::alloc::{AllocError, AllocFailed};

/// The conferences in the order of opening.
pub const CONFERENCES: [u32; 2] = [1, 2];

/// What follows the number of a conference in its configuration.
pub const CONFIGURATION: &str = "
[[conference.user]]
id = 10
[[conference.user]]
id = 11
[[conference.user]]
id = 12
[[conference.floor]]
id = 1
";

/// One step in a conference. A message has 0 for the conference.
#[derive(Clone, Copy, Debug)]
pub enum Step {
    Open,
    /// A user joins.
    Join(u16),
    /// The member with this number sends a message, so many times.
    Send(u32, [u8; 16], u32),
    /// So many parcels to a member were brought to their end.
    Took(u32, u32),
    Revoke(u16),
    Leave(u32),
    Close,
}

/// Users 10 and 11 ask for floor 1, and user 12 how request 1 stands, so often that its outbox needs a second
/// block of 31 parcels. Then the request is revoked, which tells two of them.
pub const STEPS: [Step; 11] = [
    Step::Open,
    Step::Join(10),
    Step::Join(11),
    Step::Join(12),
    Step::Send(1, [0x20, 1, 0, 1, 0, 0, 0, 0, 0, 1, 0, 10, 4, 4, 0, 1], 1),
    Step::Send(2, [0x20, 1, 0, 1, 0, 0, 0, 0, 0, 1, 0, 11, 4, 4, 0, 1], 1),
    Step::Send(3, [0x20, 3, 0, 1, 0, 0, 0, 0, 0, 1, 0, 12, 6, 4, 0, 1], 32),
    Step::Took(3, 1),
    Step::Revoke(1),
    Step::Leave(2),
    Step::Close,
];

impl Step {
    /// How often it is done.
    pub fn times(&self) -> u32 {
        match self {
            Step::Send(_, _, times) => *times,
            _ => 1,
        }
    }
}

/// A message with the number of a conference put in.
pub fn message_in(conference: u32, message: [u8; 16]) -> [u8; 16] {
    let mut bytes = message;
    bytes[4..8].copy_from_slice(&conference.to_be_bytes());
    bytes
}

/// Why a step is refused, by its name.
#[derive(Clone, Copy, Debug)]
pub struct StepRefusal {
    name: &'static str,
}

impl StepRefusal {
    pub fn name(&self) -> &'static str {
        self.name
    }
}

impl From<AllocError> for StepRefusal {
    fn from(_e: AllocError) -> StepRefusal {
        StepRefusal { name: "Memory" }
    }
}

impl<T: Drop> From<AllocFailed<T>> for StepRefusal {
    fn from(_e: AllocFailed<T>) -> StepRefusal {
        StepRefusal { name: "Memory" }
    }
}

impl From<OpenRefusal> for StepRefusal {
    fn from(refusal: OpenRefusal) -> StepRefusal {
        StepRefusal {
            name: refusal.name(),
        }
    }
}

impl From<DeskRefusal> for StepRefusal {
    fn from(refusal: DeskRefusal) -> StepRefusal {
        StepRefusal {
            name: refusal.name(),
        }
    }
}

impl From<RoomRefusal> for StepRefusal {
    fn from(refusal: RoomRefusal) -> StepRefusal {
        StepRefusal {
            name: refusal.name(),
        }
    }
}

impl From<ReadFault> for StepRefusal {
    fn from(fault: ReadFault) -> StepRefusal {
        StepRefusal { name: fault.name() }
    }
}
