//! Why the program ends early.

use floor_client::AskRefusal;
use floor_config::ConfigFault;
use floor_hub::HubRefusal;
use floor_machine::Refusal;
use std::alloc::{AllocError, AllocFailed};
use std::io;
use thiserror::Error;

/// Why the program ends early. Standard error tells it.
#[derive(Debug, Drop, Error)]
pub enum Fault {
    /// The configuration is refused.
    #[error("the configuration: {0}")]
    Configuration(ConfigFault),
    /// The hub refuses a call.
    #[error("the hub: {}", .0.name())]
    Hub(HubRefusal),
    /// The machine refuses an event.
    #[error("the conference: {}", .0.name())]
    Machine(Refusal),
    /// The client asks nothing.
    #[error("the client: {}", .0.name())]
    Client(AskRefusal),
    /// Nothing can be written.
    #[error("standard output can't be written")]
    Output(io::Error),
    /// Memory ran out.
    #[error("out of memory")]
    Memory,
}

impl From<AllocError> for Fault {
    fn from(_e: AllocError) -> Fault {
        Fault::Memory
    }
}

impl<T: Drop> From<AllocFailed<T>> for Fault {
    fn from(_e: AllocFailed<T>) -> Fault {
        Fault::Memory
    }
}

impl From<ConfigFault> for Fault {
    fn from(fault: ConfigFault) -> Fault {
        Fault::Configuration(fault)
    }
}

impl From<HubRefusal> for Fault {
    fn from(refusal: HubRefusal) -> Fault {
        Fault::Hub(refusal)
    }
}

impl From<Refusal> for Fault {
    fn from(refusal: Refusal) -> Fault {
        Fault::Machine(refusal)
    }
}

impl From<AskRefusal> for Fault {
    fn from(refusal: AskRefusal) -> Fault {
        Fault::Client(refusal)
    }
}

impl From<io::Error> for Fault {
    fn from(error: io::Error) -> Fault {
        Fault::Output(error)
    }
}
