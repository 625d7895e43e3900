//! Why a connection isn't answered.

use std::alloc::{AllocError, AllocFailed};

/// Why a connection isn't answered.
#[derive(Clone, Copy, Debug, PartialEq, Eq)]
pub enum Unserved {
    /// Too many connections are about to end.
    Full,
    /// No thread can be made for it.
    NoThread,
    /// Memory was refused.
    Memory,
}

impl Unserved {
    /// Its name.
    pub fn name(self) -> &'static str {
        match self {
            Unserved::Full => "Full",
            Unserved::NoThread => "NoThread",
            Unserved::Memory => "Memory",
        }
    }
}

impl From<AllocError> for Unserved {
    fn from(_e: AllocError) -> Unserved {
        Unserved::Memory
    }
}

impl<T: Drop> From<AllocFailed<T>> for Unserved {
    fn from(_e: AllocFailed<T>) -> Unserved {
        Unserved::Memory
    }
}
