//! Why cases are not run to their end.

use std::alloc::{AllocError, AllocFailed};
use std::io;

/// Why cases are not run to their end.
#[derive(Debug, Drop)]
pub enum Fault {
    /// Memory ran out.
    Memory,
    /// A file or a folder can't be read, or nothing can be written.
    Files(io::ErrorKind),
    /// A text isn't laid out as cases are.
    Layout(&'static str),
    /// A call gives something else than it has to.
    Wrong(&'static str),
    /// A script prints something else than its case says.
    Differs(Difference),
}

/// Where what a script prints differs first from what its case says.
#[derive(Debug, Drop)]
pub struct Difference {
    /// The name of the case.
    pub case: String,
    /// The line of what is printed, counted from 1.
    pub line: usize,
    pub wanted: String,
    pub printed: String,
}

impl From<AllocError> for Fault {
    fn from(_e: AllocError) -> Fault {
        Fault::Memory
    }
}

impl<T: Drop> From<AllocFailed<T>> for Fault {
    fn from(_e: AllocFailed<T>) -> Fault {
        Fault::Memory
    }
}

impl From<io::Error> for Fault {
    fn from(error: io::Error) -> Fault {
        Fault::Files(error.kind())
    }
}
