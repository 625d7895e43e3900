//! What a path of the folder leads to.

use std::io::ErrorKind;
use std::rt::Files;
use std::{fs, io};

/// Refuses what is there and no plain file: to open a pipe waits for whoever has its other end. Where nothing is there
/// it is for the caller to open or make it.
pub(crate) fn check_plain<R: Files>(rt: &R, path: &str) -> io::Result<()> {
    match fs::metadata(rt, path) {
        Ok(found) if found.is_file() => Ok(()),
        Ok(_) => Err(io::Error::other("it is no plain file")),
        Err(error) if error.kind() == ErrorKind::NotFound => Ok(()),
        Err(error) => Err(error),
    }
}
