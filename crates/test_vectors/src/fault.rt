//! Why the messages of a file are not read to their end.

use std::alloc::{AllocError, AllocFailed};
use std::io;
use std::io::Write;

/// Why the messages of a file are not read to their end.
#[derive(Debug, Drop)]
pub enum Fault {
    /// Memory ran out.
    Memory,
    /// The file can't be read, or nothing can be written.
    Files(io::ErrorKind),
    /// The text isn't laid out as cases are, from this line of its own on.
    Layout(String),
    /// A message means something else than its case says.
    Differs(Difference),
}

/// A message that means something else than its case says.
#[derive(Debug, Drop)]
pub struct Difference {
    /// What the case is.
    pub case: String,
    /// What it says that the message means.
    pub wanted: String,
    /// What the message means.
    pub found: String,
}

impl From<AllocError> for Fault {
    fn from(_e: AllocError) -> Fault {
        Fault::Memory
    }
}

impl<T: Drop> From<AllocFailed<T>> for Fault {
    fn from(_e: AllocFailed<T>) -> Fault {
        Fault::Memory
    }
}

impl From<io::Error> for Fault {
    fn from(error: io::Error) -> Fault {
        Fault::Files(error.kind())
    }
}

/// Tells why the messages of a file are not read to their end.
pub fn tell<E: Write>(errors: &mut E, path: &str, fault: &Fault) {
    let _written = match fault {
        Fault::Differs(difference) => writeln!(
            errors,
            "{path}: {}\nwanted {}\nfound  {}",
            difference.case, difference.wanted, difference.found
        ),
        fault => writeln!(errors, "{path}: {fault:?}"),
    };
}
