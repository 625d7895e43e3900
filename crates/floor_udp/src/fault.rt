//! Why the gateway ends with a fault.

use floor_config::ConfigFault;
use std::alloc::{AllocError, AllocFailed};

/// Why the gateway ends with status 1.
#[derive(Clone, Copy, Debug, PartialEq, Eq)]
pub enum UdpFault {
    /// The configuration's file can't be read.
    CannotRead,
    /// The server refuses the configuration.
    Config(ConfigFault),
    /// From where a user may come is no address.
    BadAddress,
    /// A user who may come over UDP may have one connection only, so that it couldn't come from another port.
    OneConnection,
    /// No user of the file may come over UDP, and no control socket is followed.
    NoAddress,
    /// The address can't be listened on, or no thread is left.
    CannotListen,
    /// Standard output can't be written.
    CannotWrite,
    /// Memory was refused.
    Memory,
}

impl UdpFault {
    /// Its name. Takes no memory.
    pub fn name(self) -> &'static str {
        match self {
            UdpFault::CannotRead => "CannotRead",
            UdpFault::Config(fault) => fault.name(),
            UdpFault::BadAddress => "BadAddress",
            UdpFault::OneConnection => "OneConnection",
            UdpFault::NoAddress => "NoAddress",
            UdpFault::CannotListen => "CannotListen",
            UdpFault::CannotWrite => "CannotWrite",
            UdpFault::Memory => "Memory",
        }
    }
}

impl From<AllocError> for UdpFault {
    fn from(_e: AllocError) -> UdpFault {
        UdpFault::Memory
    }
}

impl<T: Drop> From<AllocFailed<T>> for UdpFault {
    fn from(_e: AllocFailed<T>) -> UdpFault {
        UdpFault::Memory
    }
}
